//! Commands: one file a command, and how a request is sent and remembered.

pub mod active_session;
pub mod create_bearer;
pub mod create_session;
pub mod delete_bearer;
pub mod delete_session;
pub mod echo;
pub mod purpose;
pub mod release_session;
pub mod request;
pub mod send_request;

//! The messages that a gateway sends.

pub mod create_bearer;
pub mod create_session;
pub mod delete_bearer;
pub mod delete_session;
pub mod echo;
pub mod elements;
pub mod encode;
pub mod refusal;
pub mod version_not_supported;

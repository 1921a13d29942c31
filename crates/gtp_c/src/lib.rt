//! A proved gateway for C: behind a pointer that C holds and never looks through. `include/gtp.h` says what C gets and what
//! it has to keep.
#![tactic(auto)]

mod address_places;
mod bad_values;
mod bodies;
mod commanding;
mod contexts;
mod control;
mod datagram;
mod detached_box;
mod element_reads;
mod element_texts;
mod elements;
mod ends;
mod fault;
mod from_c;
mod gateway;
mod gateway_with_queue;
mod handle;
mod names;
mod outcome;
mod owned_pointer;
mod places;
mod places_handle;
mod places_pointer;
mod pointer_deref;
mod rows;
mod session;
mod setup;
mod status;
mod template;
mod told;
mod user;
mod user_writing;
mod values;
mod writing;

//! The requests, the responses and the configuration of a virtio-mem device as bytes. What they
//! say is that of Virtio 1.2, 5.15; the layouts are this project's own. Every number is little
//! endian. Padding is ignored where it is read, and written as zeros.
#![tactic(auto)]

mod config;
mod fault;
mod field;
mod laws;
mod request;
mod response;

pub use config::{CONFIG_BYTES, read_config, write_config};
pub use evac_model::{Config, Request, Response, STATE_MIXED, STATE_PLUGGED, STATE_UNPLUGGED};
pub use fault::{ConfigFault, RequestFault, ResponseFault};
pub use laws::{
    config_reads_back, one_config, one_request, one_response, request_reads_back,
    response_reads_back,
};
pub use request::{REQUEST_BYTES, read_request, write_request};
pub use response::{RESPONSE_BYTES, read_response, write_response};

#[cfg(test)]
mod tests;

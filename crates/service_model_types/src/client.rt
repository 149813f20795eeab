//! What a client may ask a shard.

ghost use Rattle.std.specs.Prelude.{◌≡◌, true};
ghost use Rattle.service_model_types.specs.Clients.{is_clients};

use crate::request::{Operation, Request};
use std::marker::Model;

/// A request that a client may make: any but the delivery of a transfer and its counting, which only a
/// transfer turn makes, of what the shard that it asked before has answered. To contracts it is the
/// request.
pub struct ClientRequest {
    request: Request,
}

impl Drop for ClientRequest {
    fn drop(self) {
        let ClientRequest { request: _ } = self;
    }
}

impl Model for ClientRequest {
    ghost use Rattle.std.specs.Prelude.{◌≡◌, true};
    ghost use Rattle.service_model_types.specs.declared.request.Request.{Request};
    ghost use Rattle.service_model_types.specs.Clients.{is_clients};

    ghost Value = { Request };

    ghost view = { λ c. c.request };

    ghost invariant = { λ c. is_clients c.request.operation ≡ true };
}

/// Whether a client may ask for it: for all but the delivery of a transfer and its counting.
pub fn is_clients(operation: &Operation) -> bool
    ensures { result ≡ is_clients operation.now }
{
    !matches!(operation, Operation::Deliver(_) | Operation::Acknowledge(_))
}

impl ClientRequest {
    /// The request of a client. [`is_clients`] tells whether an operation may be asked so.
    pub fn new(request: Request) -> ClientRequest
        requires { is_clients request.operation ≡ true }
        ensures { result ≡ request }
    {
        ClientRequest { request }
    }

    /// What is asked.
    pub fn request(&self) -> &Request
        ensures { result.now ≡ self.now }
    {
        &self.request
    }

    /// What is asked.
    pub fn into_request(self) -> Request
        ensures same { result ≡ self }
        ensures clients { is_clients result.operation ≡ true }
    {
        let ClientRequest { request } = self;
        request
    }
}

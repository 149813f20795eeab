//! An object whose record is handed out.

use crate::object::{HandsOut, Object};
use std::alloc::AllocError;

/// An object that answers and changes as the one in it does, and whose record is handed out while it
/// grows.
#[derive(Drop)]
pub struct Handing<O: Object> {
    pub object: O,
}

impl<O: Object> Object for Handing<O> {
    ghost use Rattle.std.specs.Prelude.{false};

    type Request = O::Request;

    type Reply = O::Reply;

    type Plan = O::Plan;

    type Content = O::Content;

    ghost opening = { λ x. O.opening x.object };

    ghost stands = { λ x. O.stands x.object };

    ghost answer = { O.answer };

    ghost after = { O.after };

    ghost keeps = { O.keeps };

    ghost keeps_same = { O.keeps_same };

    ghost keeps_on = { O.keeps_on };

    ghost grounds = { O.grounds };

    ghost grounds_on = { O.grounds_on };

    ghost whole = { false };

    ghost ready = { λ x. O.ready x.object };

    fn prepare(&mut self, request: &O::Request) -> Result<O::Plan, AllocError> {
        self.object.prepare(request)
    }

    fn commit(&mut self, plan: O::Plan) -> O::Reply {
        self.object.commit(plan)
    }
}

impl<O: Object> HandsOut for Handing<O> {
    ghost use Rattle.std.proofs.Common.{refl};

    ghost is_handed_out = { refl };
}

//! A shard whose record is handed out.

use crate::shard_object::ShardObject;
use gate::Handing;
use service_model_types::content::{Dispatch, Setup};
use std::alloc::{AllocError, Global};

impl<S: ShardObject> ShardObject for Handing<S> {
    ghost answers = { S.answers };

    ghost goes_on = { S.goes_on };

    ghost keeps_histories = { S.keeps_histories };

    ghost needs = { S.needs };

    ghost needs_all = { S.needs_all };

    fn open(alloc: Global, setup: Setup) -> Result<Handing<S>, AllocError> {
        let object = S::open(alloc, setup)?;
        Ok(Handing { object })
    }

    fn waiting(&self, alloc: Global) -> Result<Vec<Dispatch>, AllocError> {
        self.object.waiting(alloc)
    }

    fn counted_tasks(&mut self, alloc: Global) -> Result<Vec<Dispatch>, AllocError> {
        self.object.counted_tasks(alloc)
    }
}

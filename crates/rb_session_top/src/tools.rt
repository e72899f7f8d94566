use rb_api::ApiRouter;
use rb_causes::NoMemory;
use rb_wire::DoorBuffer;
use std::alloc::Global;

/// What a session needs beside its desk; it is made before the desk is opened, so that an opened
/// desk wants memory for its calls and its replies alone.
#[derive(Drop)]
pub(crate) struct Tools {
    pub(crate) router: ApiRouter,
    pub(crate) buffer: DoorBuffer,
}

impl Tools {
    pub(crate) fn new(alloc: Global) -> Result<Tools, NoMemory> {
        let router = ApiRouter::new(alloc)?;
        let buffer = DoorBuffer::new(alloc)?;
        Ok(Tools { router, buffer })
    }
}

//! Requests at a place of their own in memory.

use crate::request::Request;
use std::alloc::Global;
use std::marker::Model;
use txt_core::{NoMemory, Text};

/// A request at a place of its own in memory, so that what holds it is small and moved quickly. Contracts
/// see the request.
#[derive(Debug, Drop)]
pub struct BoxedRequest {
    request: Box<Request>,
}

impl Model for BoxedRequest {
    ghost use Rattle.http_req.specs.RequestCode.{request_code};
    ghost use Rattle.http_req.specs.declared.request.Request.{Request};

    ghost Value = { Request };

    ghost coded = { request_code };

    ghost view = { λ a. a.request.value };
}

impl BoxedRequest {
    ghost use Rattle.std.specs.Prelude.{◌≡◌, IfOk};

    /// The request, which is moved there. Its only error is want of memory.
    pub fn new(alloc: Global, request: Request) -> Result<BoxedRequest, NoMemory>
        ensures { IfOk result (λ boxed. boxed ≡ request) }
    {
        let request = Box::new(alloc, request)?;
        Ok(BoxedRequest { request })
    }

    /// The request. It takes no memory.
    pub fn get(&self) -> &Request
        ensures { result.now ≡ self.now }
    {
        &self.request
    }

    /// Puts in the body. It takes no memory.
    pub(crate) fn set_body(&mut self, body: Text)
        ensures { self.new ≡ record self.old { body = body } }
    {
        self.request.body = body;
    }
}

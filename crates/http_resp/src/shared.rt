//! Responses that several share.

ghost use Rattle.std.specs.Prelude.{◌≡◌, IfOk};

use crate::response::Response;
use std::alloc::Global;
use std::marker::Model;
use std::rc::Rc;
use txt_core::NoMemory;

/// A response that others may share, at a place of its own in memory, so that what holds it is small and
/// moved quickly. Contracts see the response.
#[derive(Debug, Drop)]
pub struct SharedResponse {
    response: Rc<Response>,
}

impl Model for SharedResponse {
    ghost use Rattle.http_resp.specs.ResponseCode.{response_code};
    ghost use Rattle.http_resp.specs.declared.response.Response.{Response};

    ghost Value = { Response };

    ghost coded = { response_code };

    ghost view = { λ a. a.response.value };
}

impl SharedResponse {
    /// This response, which is moved there. Its only error is want of memory.
    pub fn new(alloc: Global, response: Response) -> Result<SharedResponse, NoMemory>
        ensures { IfOk result (λ shared. shared ≡ response) }
    {
        let response = Rc::new(alloc, response)?;
        Ok(SharedResponse { response })
    }

    /// The same response, shared. Its only error is want of memory.
    pub fn share(&self) -> Result<SharedResponse, NoMemory>
        ensures { IfOk result (λ other. other ≡ self.now) }
    {
        let response = self.response.clone()?;
        Ok(SharedResponse { response })
    }

    /// The response. It takes no memory.
    pub fn get(&self) -> &Response
        ensures { result.now ≡ self.now }
    {
        &self.response
    }
}

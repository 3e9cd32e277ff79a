//! The methods of requests.
ghost use Rattle.std.specs.Prelude.{◌≡◌};
ghost use Rattle.route_table.specs.Methods.{method_of};

/// The methods that routes have (RFC 9110, section 9.3).
#[derive(Clone, Copy)]
pub enum Method {
    Get,
    Put,
    Post,
    Delete,
}

/// Methods are compared exactly.
#[tactic(auto, unfolding(crate::specs::Methods::method_of))]
pub fn method_of(method: &[u8]) -> Option<Method>
    ensures { result ≡ method_of method.now }
{
    if method == b"GET".as_slice() {
        Some(Method::Get)
    } else if method == b"PUT".as_slice() {
        Some(Method::Put)
    } else if method == b"POST".as_slice() {
        Some(Method::Post)
    } else if method == b"DELETE".as_slice() {
        Some(Method::Delete)
    } else {
        None
    }
}

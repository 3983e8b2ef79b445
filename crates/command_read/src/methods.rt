//! The methods that some path takes.
ghost use Rattle.std.specs.Prelude.{◌≡◌};
ghost use Rattle.command_read.specs.Methods.{method_of, takes};

use http_wire::Allow;

/// A method that some path takes.
#[derive(Clone, Copy)]
pub(crate) enum Method {
    Get,
    Post,
}

/// The method of this name, in capitals.
pub(crate) fn method_of(name: &[u8]) -> Option<Method>
    ensures { result ≡ method_of name.now }
{
    if name == b"GET".as_slice() {
        return Some(Method::Get);
    }
    if name == b"POST".as_slice() {
        return Some(Method::Post);
    }
    None
}

/// Whether the method is one of these.
pub(crate) fn takes(methods: Allow, method: Method) -> bool
    ensures { result ≡ takes methods method }
{
    match methods {
        Allow::None => false,
        Allow::Post => matches!(method, Method::Post),
        Allow::GetPost => true,
    }
}

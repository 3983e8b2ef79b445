//! Addresses that name port 0, and what may stand before the paths of notices.
ghost use Rattle.std.specs.Prelude.{◌≡◌, ◌&&◌, nat_le};
ghost use Rattle.std.specs.List.{list_all};
ghost use Rattle.run_words.specs.Addresses.{are_zeros, begins_host, has_port_0, host_behind, is_host_byte, is_public, is_zero};

/// Whether the port of the address is 0, at which a system listens where it likes.
pub(crate) fn has_port_0(address: &[u8]) -> bool
    ensures { result ≡ has_port_0 address.now }
{
    let mut rest = address;
    while let [byte, behind @ ..] = rest {
        if *byte == b':' && are_zeros(behind) {
            return true;
        }
        rest = behind;
    }
    false
}

fn are_zeros(digits: &[u8]) -> bool
    ensures { result ≡ are_zeros digits.now }
{
    0 < digits.len() && each_is_zero(digits)
}

fn each_is_zero(digits: &[u8]) -> bool
    ensures { result ≡ list_all is_zero digits.now }
{
    digits.iter().all(|digit| is_zero(*digit))
}

fn is_zero(digit: u8) -> bool
    ensures { result ≡ is_zero digit }
{
    digit == b'0'
}

/// Whether it may stand before the paths of notices: it begins with a scheme of HTTP and a host.
pub(crate) fn is_public(text: &[u8]) -> bool
    ensures { result ≡ is_public text.now }
{
    host_behind(b"http://", text) || host_behind(b"https://", text)
}

fn host_behind(scheme: &[u8], text: &[u8]) -> bool
    ensures { result ≡ host_behind scheme.now text.now }
{
    match text.strip_prefix(scheme) {
        Some(rest) => begins_host(rest),
        None => false,
    }
}

fn begins_host(text: &[u8]) -> bool
    ensures { result ≡ begins_host text.now }
{
    match text {
        [] => false,
        [byte, ..] => is_host_byte(*byte),
    }
}

fn is_host_byte(byte: u8) -> bool
    ensures { result ≡ is_host_byte byte }
{
    is_between(b'a', byte, b'z')
        || is_between(b'A', byte, b'Z')
        || is_between(b'0', byte, b'9')
        || byte == b'['
}

fn is_between(least: u8, byte: u8, most: u8) -> bool
    ensures { result ≡ (nat_le least byte && nat_le byte most) }
{
    least <= byte && byte <= most
}

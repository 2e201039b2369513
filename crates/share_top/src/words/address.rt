// An address among the words.
ghost use Rattle.std.specs.Prelude.{◌≡◌, ◌↔◌, IsTrue, MatchOption};
ghost use Rattle.share_top.specs.Words.{IsAddress, IsHost, address_word, is_host_byte};
ghost use Rattle.share_top.specs.declared.words.address.Address.{Address};

use super::number::number;
use share_model::Name;

/// A host and a port.
#[derive(Clone, Copy)]
pub struct Address {
    /// A name, or an address in digits: 1 to 255 ASCII letters, digits, `.` and `-`.
    pub host: Name,
    /// The port. Where a server listens, 0 stands for one that the system chooses.
    pub port: u16,
}

fn is_host_byte(byte: u8) -> bool
    ensures { result ≡ is_host_byte byte }
{
    byte.is_ascii_alphanumeric() || byte == b'.' || byte == b'-'
}

fn is_host(host: &[u8]) -> bool
    ensures { IsTrue result ↔ IsHost host.now }
{
    !host.is_empty() && host.len() <= 255 && host.iter().all(|&byte| is_host_byte(byte))
}

/// The address of a word `HOST:PORT`, with a port from `least` to 65535.
pub fn read_address(least: u32, word: &str) -> Option<Address>
    ensures { MatchOption result ((address : Address) → IsAddress least address → word.now ≡ address_word address → ⊥)
        (λ address. IsAddress least address × (word.now ≡ address_word address)) }
{
    let Some((host, port)) = word.split_once(':') else {
        return None;
    };
    if !is_host(host.as_bytes()) {
        return None;
    }
    let Some(host) = Name::new(host) else {
        return None;
    };
    match number(least, 65_535, port) {
        Some(port) => Some(Address {
            host,
            port: port as u16,
        }),
        None => None,
    }
}

//! Which nodes a key is routed to.
ghost use Rattle.std.specs.Prelude.{◌≡◌};
ghost use Rattle.hse_rows.specs.rows.Routing.{hash_of, routing_bytes};
ghost use Rattle.cn_tree.specs.Path.{digits_by};

/// The number that routes a key: of its first bytes, as many as the store's prefixes have at most, or
/// of all where they have none. The child of a node at depth `d` is the digit `d` of it to the base
/// 16, from the last digit on. It takes no memory.
pub fn route(prefix: u8, key: &[u8]) -> u32
    ensures { result ≡ hash_of (routing_bytes prefix key.now) }
{
    let len = prefix as usize;
    if len == 0 || key.len() <= len {
        return hash(key);
    }
    hash(&key[..len])
}

/// The number of these bytes.
fn hash(bytes: &[u8]) -> u32
    ensures { result ≡ hash_of bytes.now }
{
    let mut hash: u32 = 0;
    for byte in bytes {
        hash = ((hash as u64 * 31 + *byte as u64) % (1 << 32)) as u32;
    }
    hash
}

/// The digits of the path that this number routes along.
pub(crate) fn digits_of(hash: u32) -> [u8; 4]
    ensures { result ≡ digits_by hash }
{
    [
        (hash % 16) as u8,
        (hash / 16 % 16) as u8,
        (hash / 256 % 16) as u8,
        (hash / 4096 % 16) as u8,
    ]
}

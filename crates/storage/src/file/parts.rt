// Bytes within bytes. A number's are its `to_le_bytes`, lowest first. A place in all bytes and no part of its
// own, here and in records: what a file's clauses speak of are places in it.
ghost use Rattle.std.specs.Prelude.{◌≡◌, ◌+◌, ◌≤◌, length};
ghost use Rattle.storage.specs.ByteNumbers.{overwritten, part};

// The W bytes from k on.
pub(crate) fn bytes_at<const W: usize>(bytes: &[u8], k: usize) -> [u8; W]
    requires { k + W ≤ length bytes.now }
    ensures { result ≡ part bytes.now k W }
{
    bytes[k..k + W].try_into().unwrap()
}

// Writes bytes over those from k on.
pub(crate) fn put(bytes: &mut [u8], k: usize, new: &[u8])
    requires { k + length new.now ≤ length bytes.old }
    ensures { bytes.new ≡ overwritten bytes.old k new.now }
{
    bytes[k..k + new.len()].copy_from_slice(new);
}

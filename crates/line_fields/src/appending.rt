//! What lines are written with.

ghost use Rattle.std.specs.Prelude.{◌≡◌, ◌+◌, ◌≤◌, ◌++◌, length, vec_len, vec_capacity};

/// What ends a line, and a payload. (NATS documentation, "Client Protocol".)
pub const CR_LF: &[u8] = b"\r\n";

/// Appends bytes for which there is room.
pub fn append_reserved(out: &mut Vec<u8>, bytes: &[u8])
    requires { vec_len out.old + length bytes.now ≤ vec_capacity out.old }
    ensures items { out.new.items ≡ out.old.items ++ bytes.now }
    ensures len { vec_len out.new ≡ vec_len out.old + length bytes.now }
    ensures capacity { vec_capacity out.old ≤ vec_capacity out.new }
{
    let appended = out.extend_from_slice(bytes);
    prove!(appended.is_ok());
}

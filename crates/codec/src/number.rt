// Numbers as eight bytes, the lowest first, and what is written of events and answers alike: one byte, and then numbers.
ghost use Rattle.std.specs.Prelude.{◌≡◌, ◌∷◌, length, SomeIff};
ghost use Rattle.std.specs.List.{flat_map};
ghost use Rattle.codec.specs.Bytes.{number_length, number_bytes};
ghost use Rattle.codec.specs.Bytes.{number_of as the_number};
ghost use Rattle.codec.specs.Codec.{Writes};

// How many bytes a number has.
pub const NUMBER_LEN: usize = 8;

// The number that eight bytes hold, for a caller that knows that they are eight.
pub fn number_of(bytes: &[u8]) -> u64
    requires { length bytes.now ≡ number_length }
    ensures { result ≡ the_number bytes.now }
{
    read_number(bytes).unwrap()
}

// The number that these bytes hold, if they are as many as a number has.
pub fn read_number(bytes: &[u8]) -> Option<u64>
    ensures { SomeIff result (length bytes.now ≡ number_length) (the_number bytes.now) }
{
    bytes.as_array().map(|eight| u64::from_le_bytes(*eight))
}

// Writes one byte and then the numbers at the start of `out`, and tells how many bytes these are. Where `out` is too short it writes nothing.
// The caller lends `out`, since there is no heap, and is told a length, since a part handed back would keep it lent.
pub fn write_numbers(tag: u8, numbers: &[u64], out: &mut [u8]) -> Option<usize>
    ensures { Writes (tag ∷ flat_map number_bytes numbers.now) out.old out.new result }
{
    let end = 1 + NUMBER_LEN * numbers.len();
    if out.len() < end {
        return None;
    }
    out[0] = tag;
    // Over `chunks_exact_mut` the proof did not close: what the parts hold once they are written stayed open.
    for (i, n) in numbers.iter().enumerate() {
        let from = 1 + NUMBER_LEN * i;
        out[from..from + NUMBER_LEN].copy_from_slice(&n.to_le_bytes());
    }
    Some(end)
}

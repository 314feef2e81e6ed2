//! Memory as cells of two bytes, high byte first.

ghost use Rattle.std.specs.Prelude.{◌≡◌, ◌+◌, ◌*◌, ◌<◌, length};
ghost use Rattle.port_layout.specs.Words.{word, put};

/// The number in a cell.
pub(crate) fn read(bytes: &[u8], place: usize) -> usize
    requires { 2 * place + 1 < length bytes.now }
    ensures value { result ≡ word bytes.now place }
    ensures small { result < 65536 }
{
    u16::from_be_bytes([bytes[2 * place], bytes[2 * place + 1]]) as usize
}

/// Writes a number into a cell.
pub(crate) fn write(bytes: &mut [u8], place: usize, x: usize)
    requires { (2 * place + 1 < length bytes.old) × (x < 65536) }
    ensures { bytes.new ≡ put bytes.old place x }
{
    let [high, low] = (x as u16).to_be_bytes();
    bytes[2 * place] = high;
    bytes[2 * place + 1] = low;
}

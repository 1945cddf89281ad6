// 01, "Messages": "The fields of a message are read left to right by a reader that holds the INFO octets and its place."
ghost use Rattle.std.specs.Prelude.{◌≡◌, drop};
ghost use Rattle.message.specs.Fields.{value_of};
ghost use Rattle.message_calls.specs.Info.{reader_at, next_field};

// The octets, and the place at which the next field stands.
#[derive(Clone, Copy)]
pub struct Reader<'a> {
    pub src: &'a [u8],
    pub at: usize,
}

impl<'a> Reader<'a> {
    pub fn open(info: &'a [u8], at: usize) -> Reader<'a>
        ensures { result ≡ reader_at info.entry at }
    {
        Reader { src: info, at }
    }

    // The field at its place: one octet, or where marked two as one number, high octet first; what is not there is 0.
    pub fn field(self, two: bool) -> u16
        ensures { result ≡ next_field self.entry two }
    {
        field_in(self.src, self.at, two)
    }
}

fn field_in(src: &[u8], at: usize, two: bool) -> u16
    ensures { result ≡ next_field (reader_at src.entry at) two }
{
    if two {
        return octets::word_at(src, at);
    }
    octets::octet_at(src, at) as u16
}

// The value of the field that stands at a place. Its parameters are plain: whoever reads a field calls it.
pub(crate) fn value_at(info: &[u8], at: usize, two: bool) -> u16
    ensures { result ≡ value_of two (drop at info.now) }
{
    Reader::open(info, at).field(two)
}

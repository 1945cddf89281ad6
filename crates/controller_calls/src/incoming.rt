// A message frame that came: its SEQ and address, and how long its INFO is, which stands in the first octets kept.
ghost use Rattle.std.specs.Prelude.{◌≤◌};
ghost use Rattle.frame.specs.Frame.{info_least, info_most};

#[derive(Clone, Copy)]
pub(crate) struct Incoming {
    pub seq: u8,
    pub addr: u16,
    pub len: u16,
    ghost has_info: { (info_least ≤ len) × (len ≤ info_most) },
}

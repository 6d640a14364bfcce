// The flat grammar as one value.
ghost use Rattle.std.specs.Prelude.{ℕ, ◌<◌, ◌^◌, slice_index};

// The flat grammar, in lists that are lent. Any lists will do: `check` tells whether they are well-formed. The symbols are
// lent for a time of their own, since a production is a part of them and of no other list.
#[derive(Clone, Copy)]
pub struct Grammar<'a, 's> {
    pub rules: u16,
    pub owners: &'a [u16],
    pub starts: &'a [u16],
    pub symbols: &'s [u16],
    pub costs: &'a [u8],

    // What a token costs is a byte, of whatever list.
    ghost bytes: { (t : ℕ) → slice_index costs.now t < 2 ^ 8 },
}

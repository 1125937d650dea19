// The context of a run, the bytes that R1 points to when a program starts, and its two layouts.

ghost use Rattle.std.specs.Prelude.{◌≡◌, ◌≤◌, length};
ghost use Rattle.bpf_model.specs.Layouts.{context_len, layout_of, bytes_of};

/// Which fields a context has. `One` has 64 bytes, `Two` has 80.
#[derive(Clone, Copy, PartialEq)]
pub enum Layout {
    One,
    Two,
}

impl Layout {
    pub fn len(self) -> u32
        // proved: It returns how many bytes a layout has
        ensures same { result ≡ context_len self }
        ensures least { 64 ≤ result }
        ensures most { result ≤ 80 }
    {
        match self {
            Layout::One => 64,
            Layout::Two => 80,
        }
    }
}

#[derive(Clone, Copy, PartialEq)]
pub enum Context {
    One([u8; 64]),
    Two([u8; 80]),
}

impl Context {
    pub fn layout(&self) -> Layout
        // proved: It returns the layout of a context
        ensures { result ≡ layout_of self.now }
    {
        match self {
            Context::One(_) => Layout::One,
            Context::Two(_) => Layout::Two,
        }
    }

    pub fn bytes(&self) -> &[u8]
        // proved bytes, many: It returns a context's bytes, and how many
        ensures bytes { result.now ≡ bytes_of self.now }
        ensures many { length result.now ≡ context_len (layout_of self.now) }
    {
        match self {
            Context::One(bytes) => all_of(bytes),
            Context::Two(bytes) => all_of(bytes),
        }
    }
}

// The contract tells the prover the slice's length.
fn all_of<const N: usize>(bytes: &[u8; N]) -> &[u8]
    ensures bytes { result.now ≡ bytes.now }
    ensures many { length result.now ≡ N }
{
    bytes.as_slice()
}

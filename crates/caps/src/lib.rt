// Caps: ours, and a table of the caller's own, judged and put in the place of another.
#![tactic(auto)]

ghost use Rattle.std.specs.Prelude.{◌≡◌, ◌<◌, length};
ghost use Rattle.model.specs.Buffers.{our_caps, cap, passes, fits, all_fit};
ghost use Rattle.model.specs.Load.{all_classed};

const CAPS: [u32; 16] = [
    1, 6, 8, 10, 12, 15, 18, 21, 24, 27, 30, 36, 42, 48, 60, 4294967295,
];

// Our table.
#[tactic(auto, unfolding(model::specs::Buffers::our_caps))]
pub fn ours() -> &'static [u32; 16]
    ensures table { result.now ≡ our_caps }
    ensures length { length result.now ≡ 16 }
{
    &CAPS
}

// A class byte at most 15, and a value within the cap of that class in a table.
#[tactic(auto, unfolding(model::specs::Buffers::fits, model::specs::Buffers::cap))]
fn fits(caps: &[u32], class: u8, value: u32) -> bool
    requires { length caps.now ≡ 16 }
    ensures { result ≡ fits caps.now class value }
{
    class < 16 && value <= caps[class as usize]
}

// Each class byte at most 15, and each value within the cap of its class in a table. The classes go by index: over a zip the loop takes one instruction a cell more.
#[tactic(auto, using(crate::proofs::Caps::fit_stops, crate::proofs::Caps::fit_goes_on, crate::proofs::Caps::fit_ends))]
#[inline(never)]
pub fn all_fit(caps: &[u32], values: &[u32], classes: &[u8]) -> bool
    requires { (length caps.now ≡ 16) × (length classes.now ≡ length values.now) }
    ensures { result ≡ all_fit caps.now values.now classes.now }
{
    for (i, value) in values.iter().enumerate() {
        if !fits(caps, classes[i], *value) {
            return false;
        }
    }
    true
}

// The first cap 1 or more, and each above the one before it.
#[tactic(auto, using(crate::proofs::Caps::rise_stops, crate::proofs::Caps::rise_goes_on, crate::proofs::Caps::rise_ends), unfolding(model::specs::Buffers::passes))]
pub fn caps_pass(caps: &[u32]) -> bool
    ensures { result ≡ passes caps.now }
{
    let mut below = 0;
    for cap in caps {
        if *cap <= below {
            return false;
        }
        below = *cap;
    }
    true
}

// Each class byte at most 15. By `all` of the iterator a load takes one instruction a cell more.
#[tactic(auto, using(crate::proofs::Caps::class_stops, crate::proofs::Caps::class_goes_on, crate::proofs::Caps::class_ends))]
#[inline(never)]
pub fn all_classed(classes: &[u8]) -> bool
    ensures { result ≡ all_classed classes.now }
{
    for class in classes {
        if 15 < *class {
            return false;
        }
    }
    true
}

// A table put in the place of another.
pub fn put_caps(caps: &mut [u32], table: &[u32])
    requires { length caps.old ≡ length table.now }
    ensures { caps.new ≡ table.now }
{
    caps.copy_from_slice(table);
}

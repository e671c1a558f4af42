//! The classifiers of the kernels with 16 lanes, one of each kind.
ghost use Rattle.std.specs.Prelude.{◌<◌};

use escape_lanes::simd::target::Ticks;
use escape_lanes::simd::{BitMask, Mask, Simd, neon, sse2, v128};

/// What a kernel's classifiers return for the first bytes: in HTML, in JSON and in a script literal. Each kernel has
/// them as functions of its module, and no trait has them.
macro_rules! classified {
    ($kernel:ident, $vector:ident, $escaped:ident, $script:ident, $src:expr) => {{
        let v = $kernel::$vector::loadu($src);
        let mut ticks = Ticks::new();
        [
            $kernel::$escaped::<true>(&v, &mut ticks),
            $kernel::$escaped::<false>(&v, &mut ticks),
            $kernel::$script(&v, &mut ticks),
        ]
    }};
}

fn v128_masks(src: &[u8; 64]) -> [u16; 3] {
    classified!(v128, Simd128u, escaped_mask, script_mask, src)
}

fn sse2_masks(src: &[u8; 64]) -> [u16; 3] {
    classified!(sse2, Simd128u, escaped_mask, script_mask, src)
}

/// The bytes that HTML escapes, others that have their two halves from two of them, and bytes at the ends of ranges.
const NEIGHBOURS: &[u8; 64] = b"\"&'/<>,.267?!\0\x80\xff\
    \"&'/<>,.267?!\0\x80\xff\
    \"&'/<>,.267?!\0\x80\xff\
    \"&'/<>,.267?!\0\x80\xff";

#[test]
fn masks_of_neighbours(rt: HostRuntime) {
    assert!(rt; v128_masks(NEIGHBOURS) == [0x003f, 0x2001, 0x2033]);
    assert!(rt; sse2_masks(NEIGHBOURS) == [0x003f, 0x2001, 0x2033]);
}

/// The first lane that is set of the neighbours from this byte on, in HTML and in JSON by the bit mask and by the mask, and
/// in a script literal.
fn neon_firsts(at: usize) -> [usize; 5]
    requires { at < 16 }
{
    let bytes = &NEIGHBOURS[..];
    let v = neon::Simd128u::loadu(&bytes[at..]);
    let mut ticks = Ticks::new();
    let html = neon::escaped_mask_vec::<true>(&v, &mut ticks).bitmask();
    let json = neon::escaped_mask_vec::<false>(&v, &mut ticks).bitmask();
    [
        neon::escaped_mask::<true>(&v, &mut ticks).first_offset(),
        html.first_offset(),
        neon::escaped_mask::<false>(&v, &mut ticks).first_offset(),
        json.first_offset(),
        neon::script_mask(&v, &mut ticks).first_offset(),
    ]
}

#[test]
fn neon_masks_of_neighbours(rt: HostRuntime) {
    for at in 0..16usize {
        let html = (0x003f_003fu32 >> at).trailing_zeros() as usize;
        let json = (0x2001_2001u32 >> at).trailing_zeros() as usize;
        let script = (0x2033_2033u32 >> at).trailing_zeros() as usize;
        assert!(rt; neon_firsts(at) == [html, html, json, json, script], "{at}");
    }
}

// Every width, at its least and its greatest value.
use crate::common::{encoded, is_picture};
use picture::width_of;
use std::test::Fail;

#[test]
fn edges_of_every_width(rt: HostRuntime) -> Result<(), Fail> {
    // with w bits, two's complement holds -2^(w-1) to 2^(w-1) - 1
    let mut least = -1i32;
    for width in 1..33u32 {
        let greatest = !least;
        for value in [least, greatest] {
            assert_eq!(rt; width_of(value), width);
            let pairs = [(65_535, value)];
            let bytes = encoded(rt.alloc(), 4_294_967_295, &pairs)?;
            // 54 + 16 + width bits, and 7 to round up
            assert_eq!(rt; bytes.len(), (width as usize + 77) / 8);
            is_picture(
                &rt,
                rt.alloc(),
                "an edge of a width",
                bytes.as_slice(),
                4_294_967_295,
                width,
                &pairs,
            )?;
        }
        if width < 32 {
            assert_eq!(rt; width_of(least.wrapping_sub(1)), width + 1);
            assert_eq!(rt; width_of(greatest.wrapping_add(1)), width + 1);
        }
        least = least.wrapping_mul(2);
    }
    Ok(())
}

//! Algorithms with plans for crews, as text, and inputs. What is refused, or finds no memory, ends the test at once.

use algo::{Algo, Inputs};
use audit::check;
use checked_plan::Checked;
use meaning::image::{Image, Samples};
use std::alloc::{AllocError, Global};
use std::process::Abort;
use std::thread::Threads;

/// An algorithm, a plan of it, and the samples of an input.
#[derive(Clone, Copy)]
pub(crate) struct Example<'a> {
    pub(crate) algorithm: &'a str,
    pub(crate) plan: &'a str,
    pub(crate) samples: &'a [u16],
}

/// One more than each of ten pixels, where 255 wraps to 0; four pixels a piece.
pub(crate) const TRI: Example<'static> = Example {
    algorithm: "pipeline tri; input in u8 [10]; func out u8 (x) = in[clamp(x, 0, 9)] + 1u8; output out [10];",
    plan: "plan 1 tri
input in u8 [10]
output out u8 [10]
group 0 out [0:9] grid 3
alloc b0 out [0+4*s0#4]
for s1 0+4*s0:3+4*s0,9 serial
store b0 0 x=0+1*s1 (in[clamp(x,0,9)]+1u8)
end
publish @0
cert
own 0 [0+4*s0:3+4*s0,9]
claim 0 8 b0 out 0 [0+4*s0:3+4*s0,9]
end
",
    samples: &[10, 20, 30, 40, 50, 60, 70, 80, 90, 255],
};

/// Its picture.
pub(crate) const TRI_PICTURE: [u16; 10] = [11, 21, 31, 41, 51, 61, 71, 81, 91, 0];

/// Twice a pixel and the other one, of one more than each; a pixel of the first function a piece, and the picture in one.
pub(crate) const TWO: Example<'static> = Example {
    algorithm: "pipeline two; input in u8 [2]; func f u8 (x) = in[x] + 1u8; func out u8 (x) = f[x] * 2u8 + f[1 - x]; output out [2];",
    plan: "plan 1 two
input in u8 [2]
output out u8 [2]
group 0 f [0:1] grid 2
alloc b0 f [0+1*s0#1]
for s1 0+1*s0:0+1*s0 serial
store b0 0 x=0+1*s1 (in[x]+1u8)
end
publish @0
group 1 out [0:1] grid 1
alloc b0 f [0#2]
alloc b1 out [0#2]
fetch b0 0 [0:1]
for s1 0:1 serial
store b1 0 x=0+1*s1 ((@1[x]*2u8)+@1[(1-x)])
end
publish @2
cert
own 0 [0+1*s0:0+1*s0]
own 1 [0:1]
need 1 0 [0:1]
claim 0 8 b0 f 0 [0+1*s0:0+1*s0]
claim 1 13 b0 f 0 [0:1]
claim 2 16 b1 out 0 [0:1]
end
",
    samples: &[5, 7],
};

/// One more than each of 2 by 10 pixels; rows 0 to 2, and rows 3 to 9.
pub(crate) const INC: Example<'static> = Example {
    algorithm: "pipeline inc; input in u8 [2, 10]; func out u8 (x, y) = in[x, y] + 1u8; output out [2, 10];",
    plan: "plan 1 inc
input in u8 [2,10]
output out u8 [2,10]
group 0 out [0:1;0:9] grid 2
alloc b0 out [0#2;0+3*s0#7]
for s1 0+3*s0:2+7*s0 serial
for s2 0:1 serial
store b0 0 x=0+1*s2 y=0+1*s1 (in[x,y]+1u8)
end
end
publish @0
cert
own 0 [0:1;0+3*s0:2+7*s0]
claim 0 10 b0 out 0 [0:1;0+3*s0:2+7*s0]
end
",
    samples: &[
        64, 65, 66, 67, 68, 69, 70, 71, 72, 73, 74, 75, 76, 77, 78, 79, 80, 81, 82, 83,
    ],
};

// The samples as an image of the algorithm's input.
fn image_of(alloc: Global, algo: &Algo, samples: &[u16]) -> Result<Image, AllocError> {
    let shape = algo.input().shape.copy(alloc)?;
    Ok(Image {
        ty: shape.ty,
        extents: shape.extents,
        samples: Samples::Words(samples.to_vec(alloc)?),
    })
}

/// Whether the samples of an image are these.
pub(crate) fn shows(image: &Image, picture: &[u16]) -> bool {
    if image.samples.len() != picture.len() {
        return false;
    }
    for (place, sample) in picture.iter().enumerate() {
        if image.samples.at(place) != *sample {
            return false;
        }
    }
    true
}

/// The samples as an input of the algorithm.
pub(crate) fn inputs_of(rt: &impl Abort, alloc: Global, algo: &Algo, samples: &[u16]) -> Inputs {
    let Ok(image) = image_of(alloc, algo, samples) else {
        panic!(rt; "no memory");
    };
    match Inputs::new(algo, image) {
        Ok(inputs) => inputs,
        Err(_) => panic!(rt; "another image"),
    }
}

/// The algorithm that the text says.
pub(crate) fn algo_of(rt: &impl Abort, alloc: Global, text: &str) -> Algo {
    match Algo::read(alloc, text) {
        Ok(algo) => algo,
        Err(_) => panic!(rt; "no algorithm"),
    }
}

/// The plan that the text says, checked.
pub(crate) fn checked_of<'a>(
    rt: &(impl Threads + Sync + Abort),
    alloc: Global,
    algo: &'a Algo,
    text: &str,
) -> Checked<'a> {
    let Ok((plan, cert)) = cert::file::read(alloc, text) else {
        panic!(rt; "no plan");
    };
    match check(rt, alloc, algo, plan, cert) {
        Ok(checked) => checked,
        Err(_) => panic!(rt; "the plan is refused"),
    }
}

// The spaces of the shop, each a tag: the picture that the camera takes, the hide on the table, and the projector's beam.
// What does not fit together by its spaces does not compile: the two functions below are the right uses of what is easily misused.
#![tactic(auto)]

ghost use Rattle.std.specs.Prelude.{◌≡◌, refl};
ghost use Rattle.transform2d.specs.Flats.{flat_then, flat_point};

use geometry::types::Point2D;
use scalar::{Scalar, Tag};
use transform2d::types::Transform2D;

#[derive(Clone, Copy)]
pub struct Camera;

impl Tag for Camera {
    ghost label = { record {} };

    ghost only = { λ _. refl };

    fn tag() -> Camera {
        Camera
    }
}

#[derive(Clone, Copy)]
pub struct Hide;

impl Tag for Hide {
    ghost label = { record {} };

    ghost only = { λ _. refl };

    fn tag() -> Hide {
        Hide
    }
}

#[derive(Clone, Copy)]
pub struct Beam;

impl Tag for Beam {
    ghost label = { record {} };

    ghost only = { λ _. refl };

    fn tag() -> Beam {
        Beam
    }
}

// From the camera to the beam, by way of the hide.
pub fn camera_to_beam<T: Scalar>(
    camera_to_hide: &Transform2D<T, Camera, Hide>,
    hide_to_beam: &Transform2D<T, Hide, Beam>,
) -> Transform2D<T, Camera, Beam>
    ensures { result ≡ flat_then T.ops camera_to_hide.now hide_to_beam.now }
{
    camera_to_hide.then(hide_to_beam)
}

// Where a point that the camera sees lies on the hide.
pub fn camera_on_hide<T: Scalar>(
    camera_to_hide: &Transform2D<T, Camera, Hide>,
    seen: Point2D<T, Camera>,
) -> Point2D<T, Hide>
    ensures { result ≡ flat_point T.ops camera_to_hide.now seen }
{
    camera_to_hide.transform_point(seen)
}

// A transform of space, by its fields. `src` and `dst` hold the one value of the space that is left and of the one that is reached.

use sums::Row4;

// The four rows of a matrix of four by four.
pub type Rows<T> = (Row4<T>, Row4<T>, Row4<T>, Row4<T>);

// A row (x, y, z, w) times this matrix of four by four.
#[derive(Clone, Copy)]
pub struct Transform3D<T, Src, Dst> {
    pub m11: T,
    pub m12: T,
    pub m13: T,
    pub m14: T,
    pub m21: T,
    pub m22: T,
    pub m23: T,
    pub m24: T,
    pub m31: T,
    pub m32: T,
    pub m33: T,
    pub m34: T,
    pub m41: T,
    pub m42: T,
    pub m43: T,
    pub m44: T,
    pub src: Src,
    pub dst: Dst,
}

// The transforms of the plane, by their fields. `src` and `dst` hold the one value of the space that is left and of the one that is reached.

// Each kind of transform has its functions in a text of its own, by euclid's names: a struct cannot be generic over which entries it has.

// A scale of each axis, then an offset.
#[derive(Clone, Copy)]
pub struct ScaleOffset2D<T, Src, Dst> {
    pub sx: T,
    pub sy: T,
    pub tx: T,
    pub ty: T,
    pub src: Src,
    pub dst: Dst,
}

// An affine transform: a row (x, y, 1) times the three rows of this matrix.
#[derive(Clone, Copy)]
pub struct Transform2D<T, Src, Dst> {
    pub m11: T,
    pub m12: T,
    pub m21: T,
    pub m22: T,
    pub m31: T,
    pub m32: T,
    pub src: Src,
    pub dst: Dst,
}

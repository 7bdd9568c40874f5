// The types, by their fields. A field `unit` holds the one value of a space.
// A type of the plane and its fellow of space, and their functions, are two texts: a struct cannot be generic over how many fields it has.
// Points, vectors and sizes are types apart, so that none is taken for another.

#[derive(Clone, Copy)]
pub struct Point2D<T, U> {
    pub x: T,
    pub y: T,
    pub unit: U,
}

#[derive(Clone, Copy)]
pub struct Point3D<T, U> {
    pub x: T,
    pub y: T,
    pub z: T,
    pub unit: U,
}

#[derive(Clone, Copy)]
pub struct Vector2D<T, U> {
    pub x: T,
    pub y: T,
    pub unit: U,
}

#[derive(Clone, Copy)]
pub struct Vector3D<T, U> {
    pub x: T,
    pub y: T,
    pub z: T,
    pub unit: U,
}

#[derive(Clone, Copy)]
pub struct Size2D<T, U> {
    pub width: T,
    pub height: T,
    pub unit: U,
}

#[derive(Clone, Copy)]
pub struct Rect<T, U> {
    pub origin: Point2D<T, U>,
    pub size: Size2D<T, U>,
}

#[derive(Clone, Copy)]
pub struct Box2D<T, U> {
    pub min: Point2D<T, U>,
    pub max: Point2D<T, U>,
}

// Not one type with Box2D over its corner, which would need three traits, for equality, zero and order, of two impls each.
#[derive(Clone, Copy)]
pub struct Box3D<T, U> {
    pub min: Point3D<T, U>,
    pub max: Point3D<T, U>,
}

// A point or a vector of the plane or of space by four coordinates, as a row.
#[derive(Clone, Copy)]
pub struct HomogeneousVector<T, U> {
    pub x: T,
    pub y: T,
    pub z: T,
    pub w: T,
    pub unit: U,
}

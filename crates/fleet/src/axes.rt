//! The three axes, and values on them.
ghost use Rattle.std.specs.Prelude.{◌≡◌, ◌&&◌};
ghost use Rattle.fleet.specs.declared.axes.Axis.TheVariants.{X, Y, Z};
ghost use Rattle.fleet.specs.Axes.{part};

/// An axis.
#[derive(Clone, Copy, PartialEq, Eq, Debug)]
pub enum Axis {
    X,
    Y,
    Z,
}

/// A value on each of the three axes.
#[derive(Clone, Copy, PartialEq, Eq, Default, Debug)]
pub struct Xyz<T> {
    pub x: T,
    pub y: T,
    pub z: T,
}

impl<T> Xyz<T> {
    /// What a function gives on each axis.
    pub fn from_fn<F: Fn(Axis) -> T>(value: F) -> Xyz<T>
        requires { (axis : Axis) → F.pre value axis }
        ensures x { F.post value X result.x }
        ensures y { F.post value Y result.y }
        ensures z { F.post value Z result.z }
    {
        Xyz {
            x: value(Axis::X),
            y: value(Axis::Y),
            z: value(Axis::Z),
        }
    }
}

impl<T: Copy> Xyz<T> {
    /// The value on an axis.
    pub fn on(self, axis: Axis) -> T
        ensures { result ≡ part self axis }
    {
        match axis {
            Axis::X => self.x,
            Axis::Y => self.y,
            Axis::Z => self.z,
        }
    }

    /// What a function gives for the value on each axis.
    pub fn map<U, F: Fn(T) -> U>(self, value: F) -> Xyz<U>
        requires { F.IsAlwaysCallable value }
        ensures x { F.post value self.x result.x }
        ensures y { F.post value self.y result.y }
        ensures z { F.post value self.z result.z }
    {
        Xyz {
            x: value(self.x),
            y: value(self.y),
            z: value(self.z),
        }
    }
}

impl Xyz<bool> {
    /// Whether it is true on every axis.
    pub fn all(self) -> bool
        ensures { result ≡ (self.x && self.y && self.z) }
    {
        self.x && self.y && self.z
    }
}

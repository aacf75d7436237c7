// What prints as bytes that are known.
ghost use Rattle.std.specs.Prelude.{◌≡◌, ℕ, List, Some};

use std::fmt;

// A type whose `Display` writes known bytes, so that generic code which prints it can say exactly what it prints.
pub trait Text: fmt::Display {
    ghost bytes: { Self → List ℕ };

    ghost shows: { (x : Self) → Self.Display.output x ≡ Some (bytes x) };
}

// The sets of the examples.
use zonotope::{PolyZonotope, Radii};

// In one coordinate: factor 1 to a power.
pub fn power(exponent: u8) -> PolyZonotope {
    let mut s = line(1);
    s.exponents[0] = exponent;
    s
}

// In one coordinate: factor 1 times a number.
pub fn line(slope: i32) -> PolyZonotope {
    let mut s = zonotope::empty();
    s.dimension = 1;
    s.factors = 1;
    s.terms = 1;
    s.identifiers[0] = 1;
    s.exponents[0] = 1;
    s.coefficients[0] = slope;
    s
}

// In one coordinate: -2 + 4 a.
pub fn lower_line() -> PolyZonotope {
    let mut s = line(4);
    s.centre[0] = -2;
    s
}

// In one coordinate: a centre, one independent part and a radius.
pub fn around(centre: i32, part: i32, radius: u32) -> PolyZonotope {
    let mut s = zonotope::empty();
    s.dimension = 1;
    s.generators = 1;
    s.centre[0] = centre;
    s.vectors[0] = part;
    let radii = given(radius, 0);
    s.radii = radii;
    s
}

// In one coordinate: the sum of the factors 1 to 6. In the order of terms the last factor comes first.
pub fn first_six() -> PolyZonotope {
    let mut s = zonotope::empty();
    s.dimension = 1;
    s.factors = 6;
    s.terms = 6;
    s.identifiers[0] = 1;
    s.identifiers[1] = 2;
    s.identifiers[2] = 3;
    s.identifiers[3] = 4;
    s.identifiers[4] = 5;
    s.identifiers[5] = 6;
    s.exponents[5] = 1;
    s.exponents[16] = 1;
    s.exponents[27] = 1;
    s.exponents[38] = 1;
    s.exponents[49] = 1;
    s.exponents[60] = 1;
    s.coefficients[0] = 1;
    s.coefficients[6] = 1;
    s.coefficients[12] = 1;
    s.coefficients[18] = 1;
    s.coefficients[24] = 1;
    s.coefficients[30] = 1;
    s
}

// The same with the factors 7 to 12.
pub fn next_six() -> PolyZonotope {
    let mut s = first_six();
    s.identifiers[0] = 7;
    s.identifiers[1] = 8;
    s.identifiers[2] = 9;
    s.identifiers[3] = 10;
    s.identifiers[4] = 11;
    s.identifiers[5] = 12;
    s
}

// In one coordinate: factor 13.
pub fn thirteenth() -> PolyZonotope {
    let mut s = line(1);
    s.identifiers[0] = 13;
    s
}

// In two coordinates, with the factors a and b (identifiers 1 and 2), one independent part p and the radius 2:
// 10 - 4 a b + 9 a² + 3 p, and -5 + 6 a b.
pub fn curved() -> PolyZonotope {
    let mut s = zonotope::empty();
    s.dimension = 2;
    s.factors = 2;
    s.terms = 2;
    s.generators = 1;
    s.identifiers[0] = 1;
    s.identifiers[1] = 2;
    s.centre[0] = 10;
    s.centre[1] = -5;
    s.exponents[0] = 1;
    s.exponents[1] = 1;
    s.coefficients[0] = -4;
    s.coefficients[1] = 6;
    s.exponents[12] = 2;
    s.coefficients[6] = 9;
    s.vectors[0] = 3;
    let radii = given(2, 0);
    s.radii = radii;
    s
}

// In one coordinate: 4096 times factor 1 to the power 32.
pub fn high_power() -> PolyZonotope {
    let mut s = line(4096);
    s.exponents[0] = 32;
    s
}

// In one coordinate: c + g a².
pub fn square(c: i32, g: i32) -> PolyZonotope {
    let mut s = line(g);
    s.centre[0] = c;
    s.exponents[0] = 2;
    s
}

// In one coordinate: 3 - 3 a + 5 a².
pub fn halves() -> PolyZonotope {
    let mut s = line(-3);
    s.terms = 2;
    s.centre[0] = 3;
    s.exponents[12] = 2;
    s.coefficients[6] = 5;
    s
}

// In two coordinates, with the factors a and b, one independent part p and the radius 512 of the second coordinate:
// 8192 + 4096 a + 2048 a b + 1024 p, and -4096 + 4096 b.
pub fn plane() -> PolyZonotope {
    let mut s = zonotope::empty();
    s.dimension = 2;
    s.factors = 2;
    s.terms = 3;
    s.generators = 1;
    s.identifiers[0] = 1;
    s.identifiers[1] = 2;
    s.centre[0] = 8192;
    s.centre[1] = -4096;
    s.exponents[1] = 1;
    s.coefficients[1] = 4096;
    s.exponents[12] = 1;
    s.coefficients[6] = 4096;
    s.exponents[24] = 1;
    s.exponents[25] = 1;
    s.coefficients[12] = 2048;
    s.vectors[0] = 1024;
    let radii = given(0, 512);
    s.radii = radii;
    s
}

// The radii of two coordinates, all of it given.
fn given(first: u32, second: u32) -> Radii {
    let none = [0u32; 6];
    let given = [first, second, 0, 0, 0, 0];
    Radii {
        carried: none,
        rounded: none,
        folded: none,
        given,
    }
}

// In one coordinate: 10 + 3 p, with a radius of 10 in four parts.
pub fn parted() -> PolyZonotope {
    let mut s = around(10, 3, 0);
    let carried = [1u32, 0, 0, 0, 0, 0];
    let rounded = [2u32, 0, 0, 0, 0, 0];
    let folded = [3u32, 0, 0, 0, 0, 0];
    let given = [4u32, 0, 0, 0, 0, 0];
    let radii = Radii {
        carried,
        rounded,
        folded,
        given,
    };
    s.radii = radii;
    s
}

// 10,000 × sin² of a whole number of degrees, to the nearest whole number.
ghost use Rattle.std.specs.Prelude.{◌≡◌, ◌≤◌};
ghost use Rattle.rules.specs.Sines.{S, squares, SquaredSines};

const SQUARES: [u32; 91] = [
    0, 3, 12, 27, 49, 76, 109, 149, 194, 245, 302, 364, 432, 506, 585, 670, 760, 855, 955, 1060,
    1170, 1284, 1403, 1527, 1654, 1786, 1922, 2061, 2204, 2350, 2500, 2653, 2808, 2966, 3127, 3290,
    3455, 3622, 3790, 3960, 4132, 4304, 4477, 4651, 4826, 5000, 5174, 5349, 5523, 5696, 5868, 6040,
    6210, 6378, 6545, 6710, 6873, 7034, 7192, 7347, 7500, 7650, 7796, 7939, 8078, 8214, 8346, 8473,
    8597, 8716, 8830, 8940, 9045, 9145, 9240, 9330, 9415, 9494, 9568, 9636, 9698, 9755, 9806, 9851,
    9891, 9924, 9951, 9973, 9988, 9997, 10000,
];

// The whole table, from 0 to 90 degrees, and the laws that it keeps.
#[tactic(auto, using(crate::proofs::Table::laws), unfolding(crate::specs::Sines::squares))]
pub fn squares() -> [u32; 91]
    ensures value { result ≡ squares }
    ensures laws { SquaredSines }
{
    SQUARES
}

#[tactic(auto, unfolding(crate::specs::Sines::S, crate::specs::Sines::squares))]
pub fn square_sine(angle: u32) -> u32
    requires { angle ≤ 90 }
    ensures value { result ≡ S angle }
    ensures bound { result ≤ 10000 }
{
    SQUARES[angle as usize]
}

// The codes of locations (machine/specs/Images.antt).
ghost use Rattle.std.specs.Prelude.{◌≡◌, ◌<◌, get_or};
ghost use Rattle.machine.specs.Tables.{locations};
ghost use Rattle.machine.specs.Images.{code_of};

use machine::LOCATIONS;

// The codes of 16 numbers, four bits each: 8, for no location.
const NO_CODES: u64 = 0x8888_8888_8888_8888;

// The codes of 10 to 25 and of 26 to 41: those, less 8 - c at the location of code c. A const array
// that is indexed by a variable would be built anew where it is read.
const LOW_CODES: u64 = NO_CODES
    - (8 << (4 * (LOCATIONS[0] - 10)))
    - (7 << (4 * (LOCATIONS[1] - 10)))
    - (6 << (4 * (LOCATIONS[2] - 10)))
    - (5 << (4 * (LOCATIONS[3] - 10)))
    - (4 << (4 * (LOCATIONS[4] - 10)))
    - (3 << (4 * (LOCATIONS[5] - 10)));

const HIGH_CODES: u64 = NO_CODES
    - (2 << (4 * (LOCATIONS[6] - 26)))
    - (1 << (4 * (LOCATIONS[7] - 26)));

// The code of a location, its place among the eight. What is no location is not asked for here, so
// that it need not be compared with 10 and 40.
pub fn code_of(location: u16) -> u16
    requires { code_of location < 8 }
    ensures { result ≡ code_of location }
{
    let at = location - 10;
    let codes = if at < 16 { LOW_CODES } else { HIGH_CODES };
    ((codes >> (4 * (at % 16))) % 16) as u16
}

// The location of a code.
pub fn location_of(code: u16) -> u16
    requires { code < 8 }
    ensures { result ≡ get_or locations code 0 }
{
    LOCATIONS[code as usize]
}

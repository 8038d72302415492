// What a C program may ask of a picture's bytes: the functions of include/dingaruho.h, each the one of its name in the crate picture.
#![tactic(auto)]

ghost use Rattle.std.specs.Prelude.{◌≡◌};
ghost use Rattle.picture.specs.Calls.{checked, told, answer, place_answer};

// What the C sequencer asks: the value of `point`, 4,294,967,296 if it is not there, that plus the refusal's number if the bytes are refused.
#[unsafe(no_mangle)]
pub extern "C" fn dingaruho_ask(bytes: &[u8], point: u16) -> i64
    ensures { result ≡ answer (told bytes.now point) }
{
    picture::dingaruho_ask(bytes, point)
}

// Where the bytes are refused: the bit place, or -1 if they are a picture.
#[unsafe(no_mangle)]
pub extern "C" fn dingaruho_refused_at(bytes: &[u8]) -> i64
    ensures { result ≡ place_answer (checked bytes.now) }
{
    picture::dingaruho_refused_at(bytes)
}

//! Which header fits this library.
ghost use Rattle.std.specs.Prelude.{◌≡◌};

/// The number of the form in which C and this library hand values to each other. The function's name
/// has it, and a header refers to it by that name. So a program that was compiled with a header of
/// another form doesn't link.
#[unsafe(no_mangle)]
pub extern "C" fn phaser_c_abi_1() -> u32
    ensures { result ≡ 1 }
{
    1
}

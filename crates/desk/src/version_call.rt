// The library's version: the call of `desk_version`, exported.

ghost use Rattle.std.specs.Prelude.{◌≡◌};
ghost use Rattle.desk_version.specs.Version.{version};

// The version as one number, as include/lanecockle.h has it: 10,000 times the first number, 100 times the second, the third.
#[unsafe(no_mangle)]
pub extern "C" fn lanecockle_version() -> u32
    ensures { result ≡ version }
{
    desk_version::lanecockle_version()
}

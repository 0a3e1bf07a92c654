// The library's version, for callers in other languages. tools/tables holds it to the file VERSION.
#![tactic(auto)]

ghost use Rattle.std.specs.Prelude.{◌≡◌};
ghost use Rattle.desk_version.specs.Version.{version};

// The version as one number, as include/lanecockle.h has it: 10,000 times the first number, 100 times the second, the third.
pub fn lanecockle_version() -> u32
    ensures { result ≡ version }
{
    20000
}

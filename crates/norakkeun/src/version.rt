// Which archive is linked.
ghost use Rattle.std.specs.Prelude.{◌≡◌};
ghost use Rattle.norakkeun.specs.Promises.{version};

// The header has the same number.
const VERSION: u32 = 1;

// A caller compares it with the number of the header that it was compiled with.
#[unsafe(no_mangle)]
pub extern "C" fn norakkeun_version() -> u32
    ensures { result ≡ version }
{
    VERSION
}

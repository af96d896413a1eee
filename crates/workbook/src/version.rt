// The version of the exported functions, so that a host can tell whether it was written for this library.
ghost use Rattle.std.specs.Prelude.{◌≡◌};
ghost use Rattle.workbook.specs.Version.{version};

// The number of the last request that has landed, 0 before the first.
#[unsafe(no_mangle)]
pub extern "C" fn workbook_version() -> u32
    ensures { result ≡ version }
{
    3
}

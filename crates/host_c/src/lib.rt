// The run of crate host, for programs in C: no crate can stand on a static library, so that the run is a library of its own.
#![tactic(auto)]

ghost use Rattle.std.specs.Prelude.{◌≡◌, length};
ghost use Rattle.host.specs.Run.{accepted_records, reported_positions, reported_cash, FromBytes};

// As `host::funding_run`. A list in C is a pointer and a length in elements (include/funding.h).
#[unsafe(no_mangle)]
pub extern "C" fn funding_run(size: u8, file: &[u8], positions: &mut [i64], cash: &mut [i64]) -> u64
    ensures number { result
        ≡ accepted_records size file.now (length positions.old) (length cash.old) }
    ensures positions { positions.new
        ≡ reported_positions size file.now positions.old (length cash.old) }
    ensures cash { cash.new
        ≡ reported_cash size file.now (length positions.old) cash.old }
    ensures history { FromBytes size file.now (length positions.old) (length cash.old)
        result positions.new cash.new }
{
    host::funding_run(size, file, positions, cash)
}

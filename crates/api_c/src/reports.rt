// Reports of a lent screen record, and the lent mirror at which they arrive.
ghost use Rattle.octets.specs.Answer.{Writes};
ghost use Rattle.report.specs.declared.kind.Kind.TheVariants.{Step, Full};
ghost use Rattle.report.specs.Report.{reporting};
ghost use Rattle.mirror.specs.Mirror.{creating_mirror, arrival};

use api::reports;

#[unsafe(no_mangle)]
pub extern "C" fn report_step(rec: &[u8], out: &mut [u8]) -> u32
    ensures { Writes (reporting Step rec.now out.old) result out.new }
{
    reports::report_step(rec, out)
}

#[unsafe(no_mangle)]
pub extern "C" fn report_full(rec: &[u8], out: &mut [u8]) -> u32
    ensures { Writes (reporting Full rec.now out.old) result out.new }
{
    reports::report_full(rec, out)
}

#[unsafe(no_mangle)]
pub extern "C" fn mirror_new(mir: &mut [u8], width: u32, sitting: u32) -> u32
    ensures { Writes (creating_mirror width sitting mir.old) result mir.new }
{
    reports::mirror_new(mir, width, sitting)
}

#[unsafe(no_mangle)]
pub extern "C" fn mirror_arrive(mir: &mut [u8], report: &[u8]) -> u32
    ensures { Writes (arrival mir.old report.now) result mir.new }
{
    reports::mirror_arrive(mir, report)
}

// Reports of a lent screen record, and the lent mirror at which they arrive.
ghost use Rattle.octets.specs.Answer.{Writes};
ghost use Rattle.report.specs.declared.kind.Kind.TheVariants.{Step, Full};
ghost use Rattle.report.specs.Report.{reporting};
ghost use Rattle.mirror.specs.Mirror.{creating_mirror, arrival};

use octets::answer::{done, number};

pub fn report_step(rec: &[u8], out: &mut [u8]) -> u32
    ensures { Writes (reporting Step rec.now out.old) result out.new }
{
    number(report::report::report_step(rec, out))
}

pub fn report_full(rec: &[u8], out: &mut [u8]) -> u32
    ensures { Writes (reporting Full rec.now out.old) result out.new }
{
    number(report::report::report_full(rec, out))
}

pub fn mirror_new(mir: &mut [u8], width: u32, sitting: u32) -> u32
    ensures { Writes (creating_mirror width sitting mir.old) result mir.new }
{
    done(mirror::mirror::mirror_new(mir, width, sitting))
}

pub fn mirror_arrive(mir: &mut [u8], report: &[u8]) -> u32
    ensures { Writes (arrival mir.old report.now) result mir.new }
{
    number(mirror::arrive::mirror_arrive(mir, report))
}

//! What a run is made with, beside its script and its writer.
use crate::how::How;
use crate::manner::Manner;
use crate::on_refusal::OnRefusal;
use crate::viewing::Viewing;
use crew::Gate;
use report::Answering;
use std::alloc::Global;

/// What a run is made with: where the threads of reports, viewers and workers come from, where memory comes from, how the run
/// is made, the parts that may be loaded, what viewers are asked where there are some, what comes after a refused line, and
/// who is told of each publish, of each refusal, of reports and their pieces, of a load's parts and of what viewers see.
#[derive(Drop)]
pub struct Setup<'a, R, G: Gate> {
    pub rt: &'a R,
    pub alloc: Global,
    pub how: &'a How,
    pub parts: &'a [Vec<u8>],
    pub viewing: Option<Viewing<&'a str>>,
    pub on_refusal: OnRefusal,
    pub gate: &'a G,
}

/// What a run is made with, as of [`Setup`], and the way in which it tells its answers.
#[derive(Drop)]
pub struct SpeltSetup<'a, R, G: Gate> {
    pub rt: &'a R,
    pub alloc: Global,
    pub how: &'a How,
    pub parts: &'a [Vec<u8>],
    pub viewing: Option<Viewing<&'a str>>,
    pub on_refusal: OnRefusal,
    pub manner: &'a Manner,
    pub gate: &'a G,
}

impl<'a, R, G: Gate> SpeltSetup<'a, R, G> {
    /// What the reports of the run are answered with.
    pub(crate) fn answering(&self) -> Answering<'a, R, G> {
        Answering {
            rt: self.rt,
            alloc: self.alloc,
            workers: self.how.workers(),
            cutting: self.how.cutting(),
            gate: self.gate,
        }
    }
}

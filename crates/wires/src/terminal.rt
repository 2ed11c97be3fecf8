// A terminal gives its current where it is positive, a source, and takes it where it is negative, a sink.
#[derive(Clone, Copy, PartialEq, Eq, Debug)]
pub struct Terminal {
    pub site: u32,
    pub current: i32,
}

// What is answered: the flow from each source to each sink, and the marks that show that no flow costs less.

// The flow from source i to sink j stands at 64 * i + j, as the costs do: callers read it, so it keeps its form.
#[derive(Clone, Copy)]
pub struct Plan {
    pub flow: [u32; 4096],
    pub source_mark: [u32; 64],
    pub sink_mark: [u32; 64],
    // How many times flow was sent from a source to a sink: for information only.
    pub phases: u32,
}

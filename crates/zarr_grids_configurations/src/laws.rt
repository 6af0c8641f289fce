//! Laws of configurations. Each function does nothing: its contract is the law.
ghost use Rattle.zarr_grids_configurations.specs.Laws.{RegularReadsBack, RectangularReadsBack, RectilinearReadsBack};

/// What is written for a chunk shape reads as that chunk shape, for `regular` and for
/// `regular_bounded`.
pub fn regular_reads_back()
    ensures { RegularReadsBack }
{}

/// What is written for the edges of a `rectangular` grid reads as those edges.
pub fn rectangular_reads_back()
    ensures { RectangularReadsBack }
{}

/// What is written for the edges of a `rectilinear` grid reads as those edges.
pub fn rectilinear_reads_back()
    ensures { RectilinearReadsBack }
{}

//! Laws of the order of lines. Each function does nothing; what it ensures is the law.
ghost use Rattle.cov_order.specs.Laws.{NewestAfterAnchor, RisingLinesStandInOrder};

/// The newest line stands directly after its anchor.
pub fn newest_after_anchor()
    ensures { NewestAfterAnchor }
{}

/// Lines put directly after their anchors, with rising numbers, stand in address order.
pub fn rising_lines_stand_in_order()
    ensures { RisingLinesStandInOrder }
{}

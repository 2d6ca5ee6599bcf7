// The three slices of numbers that a state stands in, as specs/Layout.antt has them.
pub const ARENA_SIZE: usize = 200;

pub const WINDOW_ARENA: usize = 16;

pub const VIEW_ARENA: usize = 216;

pub const SURFACE_ARENA: usize = 416;

pub const VIEWS_START: usize = 616;

pub const VIEW_SIZE: usize = 48;

pub const PANELS_START: usize = 1384;

pub const PANEL_SIZE: usize = 40;

pub const SHORTCUTS_START: usize = 3944;

pub const SHORTCUT_SIZE: usize = 4;

pub const FIXED_SIZE: usize = 4969;

pub const INPUTS_START: usize = 4;

pub const INPUT_SIZE: usize = 170;

pub const TRACES_START: usize = 2724;

pub const TRACE_SIZE: usize = 96;

pub const MOVING_SIZE: usize = 5796;

pub const ROUTERS_START: usize = 3;

pub const ROUTER_SIZE: usize = 867;

pub const ROUTERS_SIZE: usize = 3471;

pub const SEQUENCES_START: usize = 1;

pub const SEQUENCES_SIZE: usize = 97;

pub const PRESSES_START: usize = 98;

pub const PRESSES_SIZE: usize = 769;

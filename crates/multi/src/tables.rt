// The rows of two frames, each as one run: thrust, roll, pitch, yaw, rotor by rotor. They follow the tables of
// relay-mix-multi's `hex_x` and `octo_coax` (Apache-2.0, see NOTICE); changed: written in Rattle, each as one run, as C
// is handed them.
pub const HEX_X: [f32; 24] = [
    1.0, -1.0, 0.0, 1.0, // rotor 1
    1.0, 1.0, 0.0, -1.0, // rotor 2
    1.0, 0.5, -0.866, 1.0, // rotor 3
    1.0, -0.5, 0.866, -1.0, // rotor 4
    1.0, -0.5, -0.866, -1.0, // rotor 5
    1.0, 0.5, 0.866, 1.0, // rotor 6
];

pub const OCTO_COAX: [f32; 32] = [
    1.0, -0.707, 0.707, 1.0, // arm 1, top
    1.0, -0.707, 0.707, -1.0, // arm 1, bottom
    1.0, 0.707, -0.707, 1.0, // arm 2, top
    1.0, 0.707, -0.707, -1.0, // arm 2, bottom
    1.0, 0.707, 0.707, -1.0, // arm 3, top
    1.0, 0.707, 0.707, 1.0, // arm 3, bottom
    1.0, -0.707, -0.707, -1.0, // arm 4, top
    1.0, -0.707, -0.707, 1.0, // arm 4, bottom
];

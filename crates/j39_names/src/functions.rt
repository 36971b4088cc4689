//! What the functions of a NAME below 128 are called (J1939-81, J1939). Made by tools/names of tables/functions.
ghost use Rattle.std.specs.Prelude.{◌≡◌};
ghost use Rattle.j39_names.specs.Names.{names_of};

use crate::name_table::NameTable;

/// The functions that have a name, from the least on.
pub const NUMBERS: [u32; 80] = [
    0, 1, 2, 3, 4, 5, 6, 7, 8, 9, 10, 11, 12, 13, 14, 15, 16, 17, 18, 19, 20, 21, 22, 23, 24, 25,
    26, 27, 28, 29, 30, 31, 32, 33, 34, 35, 36, 37, 38, 39, 40, 41, 42, 43, 44, 45, 46, 47, 48, 49,
    50, 51, 52, 53, 54, 55, 56, 57, 58, 59, 60, 61, 62, 63, 64, 65, 66, 67, 68, 69, 70, 71, 72, 73,
    74, 75, 76, 77, 78, 79,
];

/// Where the name of each starts, and last where they end.
pub const STARTS: [u32; 81] = [
    0, 6, 26, 53, 65, 85, 109, 136, 150, 161, 186, 204, 222, 238, 257, 271, 282, 301, 323, 345,
    363, 376, 395, 414, 432, 448, 472, 487, 520, 539, 555, 574, 600, 618, 632, 657, 686, 714, 728,
    749, 772, 784, 811, 829, 849, 873, 906, 916, 945, 957, 984, 1000, 1040, 1058, 1087, 1116, 1146,
    1172, 1192, 1209, 1216, 1227, 1249, 1273, 1296, 1313, 1333, 1347, 1375, 1412, 1449, 1478, 1499,
    1523, 1549, 1567, 1583, 1601, 1623, 1646, 1667,
];

/// The names, one behind the other.
pub const NAMES: &str = "\
engineauxiliary power unitelectric propulsion controltransmissionbattery pack monitorshift control o\
r consolepower takeoff, main or rearaxle, steeringaxle, drivebrakes, system controllerbrakes, steer \
axlebrakes, drive axleretarder, engineretarder, drivelinecruise controlfuel systemsteering controlle\
rsuspension, steer axlesuspension, drive axleinstrument clustertrip recordercab climate controlaerod\
ynamic controlvehicle navigationvehicle securitynetwork interconnect ECUbody controllerpower takeoff\
, secondary or frontoff vehicle gatewayvirtual terminalmanagement computerpropulsion battery charger\
headway controllersystem monitorhydraulic pump controllersuspension, system controllerpneumatic, sys\
tem controllercab controllertire pressure controlignition control moduleseat controllighting, operat\
or controlswater pump controltransmission displayexhaust emission controlvehicle dynamic stability c\
ontroloil sensorinformation system controllerramp controlclutch or converter controlauxiliary heater\
forward-looking collision warning systemchassis controlleralternator or charging systemcommunication\
s unit, cellularcommunications unit, satellitecommunications unit, radiosteering column unitfan driv\
e controlstartercab displayfile server or printeron-board diagnostic unitengine valve controllerendu\
rance brakinggas flow measurementI/O controllerelectrical system controlleraftertreatment system ga\
s measurementengine emission aftertreatment systemauxiliary regeneration devicetransfer case control\
coolant valve controllerrollover detection controllubrication systemsupplemental fantemperature sens\
orfuel properties sensorfire suppression systempower systems manager";

/// All of them.
pub(crate) fn table() -> NameTable<'static>
    ensures { names_of result ≡ record { numbers = NUMBERS; starts = STARTS; text = NAMES.now } }
{
    NameTable {
        numbers: &NUMBERS,
        starts: &STARTS,
        text: NAMES.as_bytes(),
    }
}

//! Who makes a controller, by the manufacturer code of its NAME (J1939-81, J1939). Made by tools/names of tables/makers.
ghost use Rattle.std.specs.Prelude.{◌≡◌};
ghost use Rattle.j39_names.specs.Names.{names_of};

use crate::name_table::NameTable;

/// The codes that have a name, from the least on.
pub const NUMBERS: [u32; 107] = [
    1, 2, 8, 10, 14, 16, 69, 78, 80, 85, 88, 116, 135, 137, 140, 144, 147, 148, 154, 161, 163, 165,
    168, 172, 174, 176, 185, 192, 193, 198, 199, 211, 224, 228, 229, 233, 235, 243, 272, 273, 274,
    275, 283, 285, 286, 295, 304, 305, 306, 307, 315, 328, 329, 345, 351, 355, 356, 358, 370, 373,
    374, 378, 381, 384, 385, 396, 400, 404, 409, 419, 421, 422, 426, 427, 431, 437, 440, 443, 451,
    459, 466, 470, 471, 475, 478, 493, 499, 502, 503, 504, 510, 517, 518, 532, 1851, 1852, 1853,
    1854, 1855, 1856, 1857, 1858, 1859, 1860, 1861, 1862, 1863,
];

/// Where the name of each starts, and last where they end.
pub const STARTS: [u32; 108] = [
    0, 6, 26, 37, 44, 58, 63, 79, 88, 97, 117, 131, 141, 147, 155, 163, 177, 196, 211, 221, 237,
    245, 257, 275, 281, 292, 312, 329, 347, 355, 383, 388, 413, 425, 427, 433, 459, 486, 491, 496,
    505, 517, 523, 535, 547, 553, 563, 571, 578, 586, 602, 606, 612, 616, 641, 658, 668, 681, 695,
    713, 730, 745, 756, 759, 780, 796, 810, 824, 830, 844, 862, 878, 890, 905, 912, 919, 932, 945,
    948, 963, 976, 984, 990, 1006, 1009, 1018, 1026, 1038, 1052, 1058, 1071, 1081, 1099, 1106,
    1117, 1126, 1135, 1146, 1155, 1161, 1168, 1174, 1180, 1186, 1189, 1203, 1216, 1233,
];

/// The names, one behind the other.
pub const NAMES: &str = "\
BendixAllison TransmissionCaterpillarCumminsDetroit DieselEatonARKS EnterprisesFW MurphyTwin DiscKoh\
ler Power SystemsHemisphere GPSBEP MarineAirmarMaretronLowranceMercury MarineNautibus ElectronicBlu\
e Water DataWesterbekeOffshore SystemsEvinrudeCPAC SystemsXantrex TechnologyYanmarVolvo PentaCarlin\
g TechnologiesBeede InstrumentsFloscan InstrumentNobeltecMystic Valley CommunicationsActiaDigital Sw\
itching SystemsEMMI NetworkZFGarminYacht Monitoring SolutionsSailormade Marine TelemetryeRideGrocoAc\
tisenseAmphenol LTWNavicoHamilton JetSea RecoveryCoelmoBEP MarineEmpirBusNovAtelSleipnerMBW Technolo\
giesICOMQwertyDiefKorea Maritime UniversityThrane and ThraneMastervoltFischer PandaVictron EnergyRol\
ls-Royce MarineElectronic DesignNorthern LightsGlendinningB&GRose Point NavigationJohnson OutdoorsBe\
yond MeasureLivorsi MarineComNavChetco DigitalFusion ElectronicsStandard HorizonTrue HeadingEgersun\
d Marineem-trakTohatsuDigital YachtComar SystemsVDOParker HannifinAlltek MarineVeethreeSI-TEXSea Cro\
ss MarineGMEOcean SatWatcheyeLCJ CapteursAttwood MarineNaviopVesper MarineMarinesoftNoLand Engineeri\
ngTransasOnwa MarineRaymarineNavionicsJapan RadioNorthstarFurunoTrimbleSimradLittonKvasarMMPVector C\
antechYamaha MarineFaria Instruments";

/// All of them.
pub(crate) fn table() -> NameTable<'static>
    ensures { names_of result ≡ record { numbers = NUMBERS; starts = STARTS; text = NAMES.now } }
{
    NameTable {
        numbers: &NUMBERS,
        starts: &STARTS,
        text: NAMES.as_bytes(),
    }
}

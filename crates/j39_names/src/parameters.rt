//! What parameters are called (J1939-71, J1939-73), by SPN. Made by tools/names of tables/spns.
ghost use Rattle.std.specs.Prelude.{◌≡◌};
ghost use Rattle.j39_names.specs.Names.{names_of};

use crate::name_table::NameTable;

/// The SPNs that have a name, from the least on.
pub const NUMBERS: [u32; 1462] = [
    16, 18, 19, 20, 21, 22, 26, 27, 28, 29, 38, 46, 48, 51, 52, 53, 54, 59, 60, 69, 70, 72, 73, 74,
    75, 77, 78, 79, 80, 81, 82, 84, 86, 87, 88, 90, 91, 92, 93, 94, 95, 96, 97, 98, 99, 100, 101,
    102, 103, 104, 105, 106, 107, 108, 109, 110, 111, 112, 113, 114, 115, 116, 117, 118, 119, 120,
    122, 123, 124, 125, 126, 127, 129, 131, 132, 133, 136, 137, 138, 141, 142, 143, 144, 145, 146,
    156, 157, 158, 159, 160, 161, 162, 163, 164, 165, 166, 167, 168, 169, 170, 171, 172, 173, 174,
    175, 176, 177, 178, 179, 180, 181, 182, 183, 184, 185, 186, 187, 188, 189, 190, 191, 209, 228,
    233, 234, 235, 236, 237, 240, 241, 242, 243, 244, 245, 246, 247, 248, 249, 250, 251, 252, 411,
    412, 441, 442, 444, 512, 513, 514, 515, 517, 518, 519, 520, 521, 522, 523, 524, 525, 526, 527,
    528, 529, 530, 531, 532, 533, 534, 535, 536, 537, 538, 539, 540, 541, 542, 543, 544, 545, 546,
    551, 556, 557, 558, 559, 560, 561, 562, 563, 564, 565, 566, 567, 568, 569, 570, 571, 572, 573,
    574, 575, 576, 577, 578, 579, 580, 581, 582, 583, 584, 585, 586, 587, 588, 589, 590, 591, 592,
    593, 594, 595, 596, 597, 598, 599, 600, 601, 602, 604, 605, 606, 607, 608, 609, 610, 611, 612,
    613, 614, 615, 619, 620, 623, 624, 625, 626, 627, 628, 629, 630, 631, 632, 633, 635, 636, 637,
    638, 639, 640, 641, 642, 643, 644, 645, 646, 647, 649, 651, 652, 653, 654, 655, 656, 657, 658,
    659, 660, 661, 662, 663, 664, 665, 666, 667, 668, 669, 670, 671, 672, 673, 674, 675, 676, 677,
    678, 679, 681, 682, 683, 684, 685, 686, 687, 688, 689, 690, 691, 695, 696, 697, 698, 699, 700,
    701, 702, 703, 704, 705, 706, 707, 708, 709, 710, 711, 712, 713, 714, 715, 716, 723, 729, 730,
    731, 767, 768, 769, 770, 771, 772, 773, 789, 790, 791, 792, 793, 794, 795, 796, 797, 798, 799,
    800, 801, 802, 803, 804, 805, 806, 807, 808, 809, 810, 811, 812, 897, 898, 899, 900, 901, 902,
    903, 904, 905, 906, 907, 908, 909, 910, 914, 915, 916, 917, 918, 920, 928, 929, 957, 958, 959,
    960, 961, 962, 963, 964, 965, 966, 967, 968, 969, 970, 971, 972, 973, 974, 975, 976, 977, 978,
    979, 980, 981, 982, 983, 984, 985, 986, 987, 988, 989, 990, 991, 992, 993, 994, 995, 996, 997,
    998, 999, 1000, 1001, 1002, 1003, 1004, 1005, 1006, 1007, 1008, 1009, 1010, 1011, 1012, 1013,
    1014, 1015, 1016, 1017, 1018, 1019, 1020, 1021, 1022, 1023, 1024, 1025, 1026, 1027, 1028, 1029,
    1030, 1031, 1032, 1033, 1034, 1035, 1036, 1037, 1038, 1039, 1040, 1041, 1043, 1072, 1073, 1074,
    1075, 1076, 1077, 1078, 1079, 1080, 1081, 1082, 1083, 1084, 1085, 1086, 1087, 1088, 1089, 1090,
    1091, 1092, 1093, 1094, 1095, 1096, 1099, 1100, 1101, 1102, 1103, 1104, 1107, 1108, 1109, 1110,
    1111, 1116, 1117, 1118, 1119, 1120, 1121, 1122, 1123, 1124, 1125, 1126, 1127, 1128, 1129, 1130,
    1131, 1132, 1133, 1134, 1135, 1136, 1137, 1138, 1139, 1140, 1141, 1142, 1143, 1144, 1145, 1146,
    1147, 1148, 1149, 1150, 1151, 1152, 1153, 1154, 1155, 1156, 1157, 1158, 1159, 1160, 1161, 1162,
    1163, 1164, 1165, 1166, 1167, 1168, 1169, 1170, 1171, 1172, 1173, 1174, 1175, 1176, 1177, 1178,
    1179, 1180, 1181, 1182, 1183, 1184, 1185, 1186, 1187, 1188, 1189, 1190, 1191, 1192, 1193, 1194,
    1195, 1196, 1197, 1198, 1199, 1200, 1201, 1202, 1203, 1204, 1208, 1209, 1210, 1213, 1214, 1215,
    1216, 1217, 1218, 1219, 1220, 1221, 1222, 1223, 1231, 1235, 1237, 1238, 1239, 1240, 1242, 1243,
    1244, 1245, 1321, 1322, 1323, 1324, 1325, 1326, 1327, 1328, 1329, 1330, 1331, 1332, 1333, 1334,
    1335, 1336, 1337, 1338, 1339, 1340, 1341, 1342, 1343, 1344, 1345, 1346, 1347, 1348, 1349, 1351,
    1352, 1353, 1354, 1355, 1356, 1357, 1358, 1359, 1360, 1361, 1362, 1363, 1364, 1365, 1366, 1367,
    1368, 1369, 1370, 1371, 1372, 1373, 1374, 1375, 1377, 1378, 1380, 1381, 1382, 1383, 1384, 1387,
    1388, 1390, 1391, 1392, 1393, 1394, 1395, 1396, 1397, 1398, 1399, 1400, 1401, 1402, 1403, 1404,
    1405, 1406, 1407, 1408, 1409, 1410, 1411, 1412, 1413, 1414, 1415, 1416, 1417, 1418, 1419, 1420,
    1421, 1422, 1423, 1424, 1425, 1426, 1427, 1428, 1429, 1430, 1431, 1432, 1433, 1434, 1435, 1436,
    1437, 1438, 1439, 1440, 1441, 1442, 1443, 1444, 1445, 1446, 1447, 1448, 1449, 1450, 1451, 1452,
    1453, 1454, 1455, 1456, 1457, 1458, 1459, 1460, 1461, 1462, 1463, 1464, 1465, 1480, 1481, 1482,
    1483, 1484, 1485, 1487, 1585, 1586, 1587, 1588, 1589, 1590, 1591, 1592, 1593, 1594, 1595, 1601,
    1602, 1611, 1612, 1613, 1614, 1615, 1616, 1617, 1618, 1619, 1620, 1621, 1622, 1623, 1624, 1625,
    1626, 1633, 1634, 1635, 1636, 1637, 1638, 1639, 1653, 1656, 1665, 1666, 1667, 1675, 1691, 1692,
    1693, 1694, 1695, 1696, 1697, 1698, 1699, 1700, 1701, 1713, 1714, 1715, 1716, 1717, 1721, 1722,
    1723, 1724, 1725, 1726, 1727, 1728, 1760, 1761, 1762, 1765, 1766, 1792, 1793, 1795, 1800, 1801,
    1802, 1803, 1804, 1807, 1808, 1809, 1810, 1811, 1813, 1814, 1815, 1816, 1817, 1818, 1819, 1820,
    1821, 1834, 1835, 1836, 1856, 2000, 2001, 2002, 2003, 2004, 2005, 2006, 2007, 2008, 2009, 2010,
    2011, 2012, 2013, 2014, 2015, 2016, 2017, 2018, 2019, 2020, 2021, 2022, 2023, 2024, 2025, 2026,
    2027, 2028, 2029, 2030, 2031, 2032, 2033, 2034, 2035, 2036, 2037, 2038, 2039, 2040, 2041, 2042,
    2043, 2044, 2045, 2046, 2047, 2048, 2049, 2050, 2051, 2052, 2053, 2054, 2055, 2056, 2057, 2058,
    2059, 2060, 2061, 2062, 2063, 2064, 2065, 2066, 2067, 2068, 2069, 2070, 2071, 2072, 2073, 2074,
    2075, 2076, 2077, 2078, 2079, 2080, 2081, 2082, 2083, 2084, 2085, 2086, 2087, 2088, 2089, 2090,
    2091, 2092, 2093, 2094, 2095, 2096, 2097, 2098, 2099, 2100, 2101, 2102, 2103, 2104, 2105, 2106,
    2107, 2108, 2109, 2110, 2111, 2112, 2113, 2114, 2115, 2116, 2117, 2118, 2119, 2120, 2121, 2122,
    2123, 2124, 2125, 2126, 2127, 2128, 2129, 2130, 2131, 2132, 2133, 2134, 2135, 2136, 2137, 2138,
    2139, 2140, 2141, 2142, 2143, 2144, 2145, 2146, 2147, 2148, 2149, 2150, 2151, 2152, 2153, 2154,
    2155, 2156, 2157, 2158, 2159, 2160, 2161, 2162, 2163, 2164, 2165, 2166, 2167, 2168, 2169, 2170,
    2171, 2172, 2173, 2174, 2175, 2176, 2177, 2178, 2179, 2180, 2181, 2182, 2183, 2184, 2185, 2186,
    2187, 2188, 2189, 2190, 2191, 2192, 2193, 2194, 2195, 2196, 2197, 2198, 2199, 2200, 2201, 2202,
    2203, 2204, 2205, 2206, 2207, 2208, 2209, 2210, 2211, 2212, 2213, 2214, 2215, 2216, 2217, 2218,
    2219, 2220, 2221, 2222, 2223, 2224, 2225, 2226, 2227, 2228, 2229, 2230, 2231, 2232, 2233, 2234,
    2235, 2236, 2237, 2238, 2239, 2240, 2241, 2242, 2243, 2244, 2245, 2246, 2247, 2248, 2249, 2250,
    2251, 2252, 2253, 2254, 2255, 2348, 2350, 2368, 2370, 2372, 2374, 2376, 2432, 2433, 2434, 2435,
    2436, 2437, 2438, 2439, 2440, 2441, 2442, 2443, 2444, 2445, 2446, 2447, 2448, 2449, 2450, 2451,
    2452, 2453, 2454, 2455, 2456, 2457, 2458, 2459, 2460, 2461, 2462, 2463, 2464, 2465, 2466, 2467,
    2468, 2469, 2540, 2596, 2602, 2623, 2629, 2630, 2631, 2634, 2659, 2660, 2791, 2795, 2797, 2798,
    2802, 2863, 2872, 2873, 2874, 2876, 2882, 2899, 2900, 2901, 2902, 2903, 2904, 2920, 2970, 2978,
    2979, 3030, 3031, 3069, 3216, 3217, 3218, 3219, 3220, 3221, 3222, 3223, 3224, 3225, 3226, 3227,
    3228, 3229, 3230, 3231, 3232, 3233, 3234, 3235, 3236, 3237, 3238, 3239, 3240, 3241, 3242, 3243,
    3244, 3245, 3246, 3247, 3248, 3249, 3250, 3251, 3252, 3253, 3254, 3255, 3256, 3265, 3266, 3275,
    3276, 3279, 3280, 3283, 3284, 3285, 3294, 3295, 3296, 3301, 3302, 3349, 3350, 3353, 3354, 3355,
    3356, 3357, 3358, 3360, 3361, 3362, 3363, 3364, 3411, 3412, 3413, 3414, 3415, 3416, 3417, 3418,
    3419, 3420, 3421, 3422, 3423, 3424, 3425, 3426, 3427, 3428, 3429, 3430, 3431, 3432, 3433, 3434,
    3435, 3436, 3437, 3438, 3439, 3440, 3441, 3464, 3465, 3480, 3481, 3482, 3483, 3484, 3485, 3486,
    3487, 3488, 3489, 3490, 3509, 3510, 3511, 3512, 3513, 3514, 3515, 3516, 3517, 3519, 3520, 3521,
    3522, 3523, 3524, 3525, 3556, 3562, 3563, 3597, 3598, 3599, 3607, 3609, 3610, 3644, 3667, 3673,
    3695, 3696, 3697, 3698, 3699, 3700, 3701, 3702, 3703, 3704, 3705, 3706, 3707, 3708, 3709, 3710,
    3711, 3712, 3713, 3714, 3715, 3716, 3717, 3718, 3719, 3720, 3721, 3722, 3723, 3724, 3750, 3826,
    3830, 3936, 3938, 3948, 4076, 4090, 4094, 4095, 4096, 4154, 4257, 4331, 4332, 4333, 4334, 4335,
    4336, 4337, 4339, 4340, 4341, 4342, 4343, 4344, 4345, 4346, 4347, 4348, 4354, 4355, 4356, 4357,
    4358, 4360, 4363, 4364, 4366, 4367, 4368, 4374, 4375, 4376, 4377, 4752, 4765, 4766, 4781, 4792,
    4794, 4795, 4796, 5024, 5031, 5053, 5054, 5078, 5079, 5080, 5125, 5126, 5245, 5246, 5285, 5298,
    5313, 5314, 5319, 5357, 5394, 5397, 5435, 5466, 5491, 5571, 5578, 5585, 5741, 5742, 5743, 5745,
    5746, 5793, 5798, 5826, 5837, 5838, 5841, 5842, 5848, 5862, 6301,
];

/// Where the name of each starts, and last where they end.
pub const STARTS: [u32; 1463] = [
    0, 48, 76, 103, 134, 156, 191, 218, 260, 288, 316, 328, 353, 387, 404, 427, 465, 502, 528, 554,
    575, 595, 623, 646, 673, 698, 733, 765, 789, 807, 838, 856, 881, 905, 940, 974, 1003, 1031,
    1060, 1076, 1098, 1131, 1141, 1164, 1173, 1205, 1217, 1235, 1249, 1269, 1299, 1326, 1344, 1376,
    1395, 1411, 1430, 1443, 1479, 1493, 1512, 1530, 1556, 1578, 1602, 1629, 1663, 1686, 1701, 1723,
    1758, 1799, 1824, 1857, 1878, 1902, 1919, 1944, 1968, 1995, 2023, 2054, 2085, 2106, 2130, 2154,
    2185, 2218, 2245, 2264, 2280, 2297, 2325, 2351, 2377, 2392, 2403, 2428, 2445, 2470, 2494, 2517,
    2538, 2561, 2577, 2592, 2620, 2648, 2665, 2681, 2695, 2707, 2716, 2725, 2751, 2771, 2790, 2813,
    2835, 2846, 2858, 2876, 2908, 2932, 2943, 2966, 2982, 3002, 3031, 3054, 3067, 3083, 3107, 3120,
    3134, 3153, 3171, 3196, 3220, 3235, 3239, 3243, 3290, 3327, 3350, 3373, 3392, 3422, 3443, 3474,
    3506, 3536, 3552, 3605, 3635, 3655, 3674, 3686, 3699, 3726, 3743, 3764, 3780, 3796, 3812, 3828,
    3855, 3896, 3933, 3974, 4015, 4057, 4099, 4130, 4155, 4180, 4205, 4230, 4253, 4282, 4313, 4353,
    4378, 4401, 4436, 4469, 4486, 4511, 4535, 4559, 4591, 4628, 4666, 4703, 4740, 4776, 4812, 4848,
    4884, 4915, 4931, 4950, 4969, 4991, 5013, 5041, 5049, 5072, 5083, 5088, 5096, 5105, 5109, 5114,
    5127, 5143, 5168, 5196, 5224, 5262, 5293, 5314, 5342, 5354, 5367, 5392, 5419, 5447, 5479, 5506,
    5537, 5570, 5595, 5608, 5620, 5632, 5656, 5680, 5704, 5728, 5752, 5774, 5788, 5801, 5819, 5838,
    5866, 5878, 5892, 5904, 5922, 5940, 5962, 5993, 6010, 6036, 6049, 6067, 6082, 6114, 6155, 6196,
    6223, 6251, 6275, 6305, 6324, 6363, 6382, 6401, 6420, 6439, 6458, 6477, 6496, 6515, 6534, 6554,
    6574, 6594, 6614, 6634, 6654, 6674, 6694, 6714, 6734, 6754, 6774, 6794, 6814, 6834, 6848, 6863,
    6882, 6896, 6932, 6958, 6989, 7016, 7045, 7094, 7143, 7191, 7239, 7283, 7333, 7382, 7410, 7451,
    7473, 7495, 7517, 7539, 7554, 7569, 7584, 7599, 7614, 7629, 7644, 7659, 7674, 7690, 7706, 7722,
    7738, 7754, 7770, 7786, 7807, 7826, 7845, 7859, 7896, 7928, 7959, 7996, 8035, 8076, 8117, 8142,
    8168, 8193, 8219, 8244, 8270, 8308, 8347, 8385, 8424, 8462, 8501, 8523, 8540, 8557, 8572, 8587,
    8612, 8637, 8661, 8686, 8704, 8728, 8736, 8766, 8781, 8799, 8819, 8832, 8849, 8886, 8902, 8940,
    8979, 9018, 9058, 9097, 9137, 9153, 9183, 9216, 9247, 9277, 9299, 9312, 9325, 9354, 9383, 9390,
    9397, 9402, 9405, 9410, 9414, 9454, 9477, 9498, 9519, 9551, 9583, 9603, 9631, 9656, 9689, 9716,
    9735, 9750, 9800, 9855, 9882, 9913, 9940, 9966, 9990, 10030, 10057, 10069, 10081, 10106, 10138,
    10169, 10196, 10227, 10243, 10284, 10325, 10368, 10404, 10427, 10452, 10472, 10507, 10546,
    10573, 10594, 10617, 10646, 10690, 10738, 10774, 10804, 10836, 10861, 10886, 10916, 10947,
    10971, 10997, 11017, 11045, 11074, 11112, 11137, 11169, 11190, 11212, 11241, 11279, 11301,
    11348, 11379, 11397, 11415, 11431, 11463, 11487, 11501, 11528, 11546, 11570, 11592, 11622,
    11655, 11688, 11708, 11742, 11780, 11810, 11836, 11859, 11882, 11900, 11921, 11944, 11967,
    11999, 12031, 12067, 12103, 12138, 12168, 12211, 12255, 12299, 12344, 12388, 12433, 12472,
    12512, 12552, 12593, 12633, 12674, 12703, 12735, 12773, 12815, 12853, 12883, 12911, 12933,
    12954, 12972, 12988, 13020, 13052, 13084, 13116, 13148, 13177, 13206, 13235, 13264, 13293,
    13322, 13351, 13381, 13398, 13413, 13443, 13473, 13503, 13533, 13563, 13593, 13623, 13653,
    13683, 13714, 13745, 13776, 13807, 13838, 13869, 13900, 13931, 13962, 13993, 14024, 14050,
    14076, 14102, 14128, 14154, 14180, 14206, 14232, 14258, 14285, 14312, 14344, 14364, 14384,
    14404, 14448, 14492, 14536, 14580, 14621, 14662, 14703, 14744, 14785, 14826, 14867, 14908,
    14949, 14990, 15031, 15072, 15114, 15156, 15198, 15240, 15292, 15327, 15361, 15386, 15413,
    15439, 15463, 15494, 15522, 15540, 15574, 15600, 15615, 15638, 15658, 15676, 15702, 15726,
    15749, 15765, 15784, 15804, 15846, 15860, 15910, 15953, 15995, 16010, 16025, 16056, 16088,
    16102, 16116, 16151, 16172, 16203, 16220, 16247, 16277, 16295, 16313, 16331, 16349, 16367,
    16385, 16403, 16421, 16439, 16458, 16477, 16496, 16515, 16534, 16553, 16572, 16591, 16610,
    16629, 16648, 16667, 16686, 16705, 16724, 16757, 16790, 16823, 16844, 16866, 16888, 16910,
    16932, 16954, 16976, 16998, 17020, 17042, 17065, 17088, 17111, 17134, 17157, 17180, 17203,
    17226, 17249, 17272, 17295, 17318, 17341, 17364, 17387, 17416, 17435, 17461, 17493, 17541,
    17565, 17590, 17610, 17630, 17667, 17701, 17734, 17782, 17830, 17878, 17926, 17974, 18022,
    18070, 18118, 18166, 18215, 18264, 18313, 18362, 18411, 18460, 18509, 18558, 18607, 18656,
    18705, 18731, 18757, 18783, 18809, 18835, 18861, 18887, 18913, 18939, 18966, 18993, 19020,
    19047, 19074, 19101, 19128, 19155, 19182, 19209, 19236, 19261, 19286, 19311, 19333, 19356,
    19384, 19406, 19422, 19438, 19459, 19480, 19506, 19532, 19558, 19584, 19610, 19636, 19662,
    19688, 19714, 19741, 19768, 19795, 19822, 19849, 19876, 19903, 19930, 19957, 19984, 20011,
    20034, 20057, 20110, 20161, 20218, 20269, 20325, 20339, 20362, 20384, 20408, 20435, 20468,
    20509, 20537, 20551, 20579, 20608, 20635, 20663, 20682, 20699, 20713, 20735, 20757, 20774,
    20795, 20816, 20844, 20872, 20891, 20913, 20933, 20945, 20974, 20998, 21021, 21044, 21071,
    21102, 21128, 21172, 21208, 21229, 21238, 21283, 21319, 21353, 21390, 21421, 21440, 21472,
    21513, 21550, 21589, 21633, 21680, 21720, 21752, 21799, 21830, 21862, 21901, 21931, 21970,
    22000, 22048, 22079, 22111, 22142, 22172, 22204, 22237, 22268, 22300, 22332, 22350, 22368,
    22399, 22430, 22472, 22498, 22528, 22549, 22570, 22599, 22628, 22656, 22676, 22684, 22704,
    22729, 22756, 22808, 22859, 22912, 22954, 22995, 23028, 23060, 23093, 23110, 23133, 23159,
    23177, 23202, 23229, 23256, 23287, 23320, 23353, 23394, 23437, 23483, 23516, 23548, 23581,
    23626, 23664, 23704, 23744, 23780, 23819, 23853, 23884, 23923, 23965, 24009, 24053, 24093,
    24126, 24163, 24212, 24251, 24289, 24325, 24362, 24396, 24440, 24475, 24553, 24586, 24639,
    24678, 24725, 24766, 24799, 24846, 24884, 24928, 24975, 25019, 25064, 25115, 25162, 25205,
    25250, 25294, 25339, 25384, 25418, 25465, 25516, 25557, 25594, 25643, 25694, 25741, 25797,
    25827, 25878, 25929, 25961, 26005, 26043, 26081, 26124, 26164, 26204, 26250, 26299, 26349,
    26395, 26435, 26475, 26509, 26553, 26607, 26661, 26706, 26739, 26795, 26849, 26903, 26948,
    26986, 27031, 27072, 27123, 27165, 27209, 27226, 27243, 27260, 27277, 27294, 27312, 27330,
    27348, 27366, 27384, 27402, 27420, 27438, 27456, 27474, 27492, 27510, 27528, 27546, 27564,
    27582, 27600, 27618, 27636, 27654, 27672, 27690, 27708, 27726, 27744, 27762, 27780, 27798,
    27816, 27834, 27852, 27870, 27888, 27906, 27924, 27942, 27960, 27978, 27996, 28014, 28032,
    28050, 28068, 28086, 28104, 28122, 28140, 28158, 28176, 28194, 28212, 28230, 28248, 28266,
    28284, 28302, 28320, 28338, 28356, 28374, 28392, 28410, 28428, 28446, 28464, 28482, 28500,
    28518, 28536, 28554, 28572, 28590, 28608, 28626, 28644, 28662, 28680, 28698, 28716, 28734,
    28752, 28770, 28788, 28806, 28824, 28842, 28860, 28878, 28896, 28914, 28932, 28950, 28968,
    28986, 29004, 29022, 29040, 29058, 29076, 29094, 29112, 29130, 29148, 29166, 29184, 29202,
    29220, 29238, 29256, 29274, 29292, 29310, 29328, 29346, 29364, 29382, 29400, 29418, 29436,
    29454, 29472, 29490, 29508, 29526, 29544, 29562, 29580, 29598, 29616, 29634, 29652, 29670,
    29688, 29706, 29724, 29742, 29760, 29778, 29796, 29814, 29832, 29850, 29868, 29886, 29904,
    29922, 29940, 29958, 30001, 30057, 30113, 30154, 30204, 30247, 30265, 30283, 30303, 30322,
    30345, 30369, 30384, 30400, 30417, 30445, 30483, 30520, 30550, 30580, 30610, 30640, 30670,
    30708, 30738, 30768, 30798, 30839, 30875, 30911, 30947, 30972, 30997, 31022, 31047, 31073,
    31101, 31129, 31157, 31187, 31219, 31251, 31283, 31313, 31345, 31377, 31409, 31439, 31469,
    31499, 31529, 31560, 31591, 31606, 31642, 31661, 31690, 31734, 31772, 31807, 31818, 31858,
    31900, 31941, 31991, 32007, 32023, 32034, 32061, 32078, 32095, 32118, 32136, 32159, 32186,
    32218, 32233, 32250, 32262, 32270, 32298, 32333, 32382, 32420, 32442, 32466, 32517, 32527,
    32540, 32589, 32638, 32680, 32725, 32782, 32831, 32881, 32934, 32944, 32957, 33006, 33055,
    33097, 33142, 33199, 33248, 33298, 33351, 33394, 33436, 33478, 33520, 33562, 33587, 33628,
    33686, 33760, 33785, 33826, 33884, 33958, 33983, 34030, 34070, 34128, 34201, 34281, 34308,
    34338, 34365, 34395, 34437, 34495, 34537, 34595, 34637, 34701, 34758, 34805, 34859, 34902,
    34925, 34982, 35004, 35024, 35043, 35062, 35081, 35100, 35146, 35189, 35237, 35286, 35347,
    35396, 35446, 35463, 35484, 35505, 35528, 35549, 35570, 35593, 35614, 35635, 35658, 35679,
    35700, 35723, 35744, 35765, 35788, 35809, 35830, 35853, 35874, 35895, 35918, 35939, 35960,
    35983, 36004, 36025, 36048, 36070, 36092, 36116, 36151, 36186, 36218, 36244, 36281, 36317,
    36342, 36378, 36413, 36450, 36497, 36533, 36568, 36591, 36614, 36637, 36660, 36683, 36706,
    36757, 36808, 36858, 36925, 36989, 37035, 37067, 37107, 37143, 37196, 37230, 37256, 37291,
    37324, 37357, 37390, 37426, 37462, 37498, 37519, 37544, 37563, 37609, 37653, 37684, 37728,
    37774, 37819, 37844, 37873, 37917, 37964, 38014, 38064, 38120, 38164, 38227, 38278, 38331,
    38380, 38424, 38478, 38532, 38582, 38645, 38718, 38771, 38823, 38894, 38947, 38999, 39070,
    39131, 39188, 39240, 39280, 39304, 39338, 39359, 39398, 39466, 39536, 39594, 39634, 39650,
    39710, 39743, 39810, 39871, 39927, 39971, 40026, 40070, 40127, 40194, 40251, 40318, 40375,
    40442, 40499, 40566, 40629, 40680, 40731, 40782, 40833, 40875, 40914, 40953, 40995, 41046,
    41096, 41152, 41206, 41265, 41315, 41346, 41391, 41456, 41521, 41566, 41593, 41628, 41671,
    41721, 41768, 41815, 41841, 41873, 41906, 41934, 41972, 41995, 42018, 42078, 42125, 42155,
    42219, 42247, 42283, 42342, 42394, 42437, 42498, 42546, 42614, 42669, 42714, 42745, 42787,
    42822, 42881, 42925, 42981, 43043, 43071, 43139, 43191, 43200, 43243, 43283, 43316, 43357,
    43402, 43427,
];

/// The names, one behind the other.
pub const NAMES: &str = "\
fuel filter (suction side) differential pressureextended range fuel pressureextended range oil press\
ureextended range coolant pressureengine ECU temperatureextended crankcase blow-by pressureestimate\
d percent fan speedexhaust gas recirculation 1 valve positionaccelerator pedal position 3accelerato\
r pedal position 2fuel level 2pneumatic supply pressureextended range barometric pressurethrottle po\
sitionintercooler temperaturetransmission synchronizer clutch valuetransmission synchronizer brake v\
alueshift finger gear positionshift finger rail positiontwo speed axle switchparking brake switchblo\
wer bypass valve positionauxiliary pump pressuremaximum vehicle speed limitsteering axle temperature\
forward rear drive axle temperaturerear rear drive axle temperatureroad surface temperaturewasher fl\
uid levelparticulate trap inlet pressureair start pressurewheel-based vehicle speedcruise control se\
t speedcruise control high set limit speedcruise control low set limit speedpower takeoff oil temper\
atureaccelerator pedal position 1percent load at current speednet brake torquefuel delivery pressure\
fuel filter differential pressurefuel levelwater in fuel indicatoroil leveloil filter differential p\
ressureoil pressurecrankcase pressureboost pressureturbocharger 1 speedturbocharger lube oil pressur\
eintake manifold temperatureair inlet pressureair filter differential pressurebarometric pressurecoo\
lant pressurecoolant temperaturecoolant levelcoolant filter differential pressuregovernor droopnet b\
attery currentalternator currentbrake application pressurebrake primary pressurebrake secondary pres\
surehydraulic retarder pressurehydraulic retarder oil temperatureengine retarder percentclutch press\
uretransmission oil leveltransmission oil level, high or lowtransmission filter differential pressur\
etransmission oil pressureinjector metering rail 2 pressureexhaust back pressureinlet air mass flow \
rateaverage fuel rateauxiliary vacuum pressureauxiliary gauge pressureauxiliary absolute pressuretra\
iler tire pressure targetdrive axle tire pressure targetsteer axle tire pressure targettrailer tire \
pressuredrive axle tire pressuresteer axle tire pressureinjector timing rail 1 pressureinjector mete\
ring rail 1 pressurekeyswitch battery potentialgas supply pressuremain shaft speedinput shaft speedt\
ransmission requested rangetransmission current rangeinjection control pressurecompass bearingrated \
powercharging system potentialbattery potentialcargo ambient temperaturecab interior temperatureambi\
ent air temperatureair inlet temperatureexhaust gas temperaturefuel temperatureoil temperatureturboc\
harger oil temperaturetransmission oil temperaturefront axle weightrear axle weighttrailer weightcar\
go weighttrip fuelfuel rateinstantaneous fuel economyaverage fuel economypower takeoff speedpower ta\
keoff set speedspeed at idle, point 1rated speedengine speedoutput shaft speedtrailer anti-lock cont\
rol statusspeed sensor calibrationunit numbersoftware identificationtotal idle hourstotal idle fuel \
usedvehicle identification numberchange reference numbertire pressuretire temperaturecomponent ident\
ificationtrip distancetotal distancetotal vehicle hourstotal engine hourstotal power takeoff hoursto\
tal engine revolutionstotal fuel usedtimedateexhaust gas recirculation differential pressureexhaust \
gas recirculation temperatureauxiliary temperature 1auxiliary temperature 2battery potential 2driver\
's demand percent torqueactual percent torquenominal friction percent torqueengine's desired operati\
ng speednavigation-based vehicle speedrequested torqueengine's desired operating speed asymmetry adj\
ustmentactual retarder percent torquebrake pedal positionpercent clutch slipcurrent gearselected gea\
rtransmission requested gearactual gear ratiocruise control statesspeed at point 2speed at point 3sp\
eed at point 4speed at point 5speed at high idle, point 6maximum momentary override speed, point 7ma\
ximum momentary override time limitrequested speed control range lower limitrequested speed control \
range upper limitrequested torque control range lower limitrequested torque control range upper limi\
tpercent torque at idle, point 1percent torque at point 2percent torque at point 3percent torque at \
point 4percent torque at point 5engine reference torquegain of the endspeed governorretarder speed a\
t idle, point 1retarder percent torque at idle, point 1reference retarder torqueretarder control met\
hodaccelerator pedal 1 low idle switchaccelerator pedal kickdown switchdriveline engagedASR engine c\
ontrol activeASR brake control activeanti-lock braking activedifferential lock state, centraldiffere\
ntial lock state, central reardifferential lock state, central frontdifferential lock state, front a\
xle 1differential lock state, front axle 2differential lock state, rear axle 1differential lock stat\
e, rear axle 2retarder enable, brake assist switchretarder enable, shift assist switchtorque convert\
er lockup engagedshift in processABS off-road switchASR off-road switchASR hill holder switchdrive a\
xle temperaturedrive axle lift air pressurealtitudetransmission gear ratioaxle weightpitchlatitudelo\
ngitudemakemodelserial numberalternator speedidle shutdown timer stateidle shutdown timer functionid\
le shutdown timer overrideidle shutdown has shut down the engineidle shutdown driver alert modecruis\
e control activecruise control enable switchbrake switchclutch switchcruise control set switchcruis\
e control coast switchcruise control resume switchcruise control accelerate switchtransmission neutr\
al switchrefrigerant low pressure switchengine momentary overspeed enableprogressive shift disableJ1\
587 networkcontroller 2controller 3system diagnostic code 1system diagnostic code 2system diagnosti\
c code 3system diagnostic code 4system diagnostic code 5parking brake actuator5 volts supplyred sto\
p lampamber warning lampproprietary networkengine start enable device 1power supplyprogram memorycon\
troller 1calibration memorycalibration modulefuel shutoff 1 controlfuel actuator 1 control commandti\
ming actuator 1crankshaft position sensortiming sensorfuel rack actuatorJ1939 network 1external engi\
ne protection inputvariable geometry turbocharger actuator 1variable geometry turbocharger actuator \
2external fuel command inputexternal speed command inputtachometer signal outputturbocharger 1 waste\
gate drivefan clutch 1 outputexhaust back pressure regulator controlinjector cylinder 1injector cyli\
nder 2injector cylinder 3injector cylinder 4injector cylinder 5injector cylinder 6injector cylinder \
7injector cylinder 8injector cylinder 9injector cylinder 10injector cylinder 11injector cylinder 12i\
njector cylinder 13injector cylinder 14injector cylinder 15injector cylinder 16injector cylinder 17i\
njector cylinder 18injector cylinder 19injector cylinder 20injector cylinder 21injector cylinder 22i\
njector cylinder 23injector cylinder 24glow plug lampglow plug relaystarter motor relay8 volts suppl\
yinjection control pressure regulatorgear shift inhibit requesttorque converter lockup requestdiseng\
age driveline requestrequested percent clutch slipdisengage differential lock request, front axle 1d\
isengage differential lock request, front axle 2disengage differential lock request, rear axle 1dise\
ngage differential lock request, rear axle 2disengage differential lock request, centraldisengage di\
fferential lock request, central frontdisengage differential lock request, central rearengine overri\
de control modeengine requested speed control conditionsauxiliary PWM driver 1auxiliary PWM driver 2\
auxiliary PWM driver 3auxiliary PWM driver 4auxiliary I/O 1auxiliary I/O 2auxiliary I/O 3auxiliary I\
/O 4auxiliary I/O 5auxiliary I/O 6auxiliary I/O 7auxiliary I/O 8auxiliary I/O 9auxiliary I/O 10auxil\
iary I/O 11auxiliary I/O 12auxiliary I/O 13auxiliary I/O 14auxiliary I/O 15auxiliary I/O 16engine sp\
eed sensor 2intake air heater 1intake air heater 2knock sensor 1transmission reverse direction switc\
htransmission range high actuatortransmission range low actuatortransmission splitter direct actuato\
rtransmission splitter indirect actuatortransmission shift finger rail actuator 1transmission shift \
finger gear actuator 1wheel sensor, axle 1 leftwheel sensor, axle 1 rightwheel sensor, axle 2 leftwh\
eel sensor, axle 2 rightwheel sensor, axle 3 leftwheel sensor, axle 3 rightpressure modulation valve\
, axle 1 leftpressure modulation valve, axle 1 rightpressure modulation valve, axle 2 leftpressure m\
odulation valve, axle 2 rightpressure modulation valve, axle 3 leftpressure modulation valve, axle \
3 rightretarder control relayrelay, diagonal 1relay, diagonal 2ABS mode switchASR mode switchASR val\
ve, differential 1ASR valve, differential 2pneumatic engine controlelectronic engine controlspeed si\
gnal inputtractor ABS warning lampASR lampoverride control mode priorityrequested speedengine torqu\
e moderetarder torque moderetarder typeretarder locationtransmission forward direction switchfront a\
xle speedrelative speed, front axle, left wheelrelative speed, front axle, right wheelrelative speed\
, rear axle 1, left wheelrelative speed, rear axle 1, right wheelrelative speed, rear axle 2, left w\
heelrelative speed, rear axle 2, right wheelservice distanceservice delay by calendar timeservice de\
lay by operational timetotal distance, high resolutiontrip distance, high resolutionaudible warning \
deviceaxle locationtire locationnumber of forward gear ratiosnumber of reverse gear ratiossecondsmin\
uteshoursdaymonthyearnumber of software identification fieldsengine test mode switchidle decrement s\
witchidle increment switchremote accelerator enable switchengine auxiliary shutdown switchengine der\
ate switchaccelerator interlock switchengine retarder selectionremote accelerator pedal positionesti\
mated percent fan speedpower takeoff statefan drive stateremote power takeoff variable speed contro\
l switchremote power takeoff preprogrammed speed control switchpower takeoff enable switchpower take\
off accelerate switchpower takeoff resume switchpower takeoff coast switchpower takeoff set switchai\
r conditioner high pressure fan switchrequested percent fan speedprotect lamptrip group 1trip group \
2, proprietarytotal compression brake distancetrip compression brake distancetrip service brake dist\
ancetrip service brake applicationstrip fan on timetrip fan on time due to the engine systemtrip fa\
n on time due to the manual switchtrip fan on time due to the air conditionertrip distance on vehicl\
e speed limittrip gear down distancetrip distance in top geartrip drive fuel usedtrip power takeoff \
moving fuel usedtrip power takeoff non-moving fuel usedtrip vehicle idle fuel usedtrip cruise fuel u\
sedtrip drive fuel economytrip drive fuel used, gaseoustrip power takeoff moving fuel used, gaseoust\
rip power takeoff non-moving fuel used, gaseoustrip vehicle idle fuel used, gaseoustrip cruise fuel \
used, gaseoustrip drive fuel economy, gaseoustrip maximum engine speedtrip average engine speedtrip \
drive average load factortotal drive average load factortotal engine cruise timetrip maximum vehicl\
e speedtrip cruise distancetrip number of hot shutdownstrip number of idle shutdownstrip number of i\
dle shutdown overridestrip sudden decelerationstrip time in vehicle speed limittrip time in top gear\
trip time in gear downtrip time in derate by enginetotal power takeoff governor fuel usedtrip averag\
e fuel ratetotal power takeoff governor fuel used, gaseoustrip average fuel rate, gaseoustotal ECU d\
istancetotal ECU run timetrip cruise timetrip power takeoff governor timetrip engine running timetri\
p idle timetrip air compressor on timetrip fuel, gaseoustotal fuel used, gaseousstart signal indicat\
orinternal sensor voltage supplyengine compression brake output 1engine compression brake output 2ex\
haust brake outputelectric lift pump for fuel supplyfuel injection pump fuel control valvefuel injec\
tion pump controllerfuel injection pump timingsensor supply voltage 1sensor supply voltage 2wait to \
start lampcoolant load increaseauxiliary I/O channel 1auxiliary I/O channel 2intended retarder perce\
nt torqueparking and trailer air pressureservice brake circuit 1 air pressureservice brake circuit \
2 air pressureauxiliary equipment supply pressureair suspension supply pressurebrake application pre\
ssure, front axle leftbrake application pressure, front axle rightbrake application pressure, rear a\
xle 1 leftbrake application pressure, rear axle 1 rightbrake application pressure, rear axle 2 leftb\
rake application pressure, rear axle 2 rightbrake lining remaining, front axle leftbrake lining rema\
ining, front axle rightbrake lining remaining, rear axle 1 leftbrake lining remaining, rear axle 1 r\
ightbrake lining remaining, rear axle 2 leftbrake lining remaining, rear axle 2 rightprotection syst\
em timer stateprotection system timer overrideprotection system approaching shutdownprotection syste\
m has shut down the engineengine protection system configurationgaseous fuel correction factordesire\
d rated exhaust oxygendesired exhaust oxygenactual exhaust oxygenarticulation angleEBS brake switcha\
lternator bearing 1 temperaturealternator bearing 2 temperaturealternator winding 1 temperaturealter\
nator winding 2 temperaturealternator winding 3 temperatureturbocharger 1 boost pressureturbocharge\
r 2 boost pressureturbocharger 3 boost pressureturbocharger 4 boost pressureintake manifold 2 temper\
atureintake manifold 3 temperatureintake manifold 4 temperatureintercooler thermostat openingoil tem\
perature 2ECU temperatureexhaust gas port 1 temperatureexhaust gas port 2 temperatureexhaust gas por\
t 3 temperatureexhaust gas port 4 temperatureexhaust gas port 5 temperatureexhaust gas port 6 temper\
atureexhaust gas port 7 temperatureexhaust gas port 8 temperatureexhaust gas port 9 temperatureexhau\
st gas port 10 temperatureexhaust gas port 11 temperatureexhaust gas port 12 temperatureexhaust gas \
port 13 temperatureexhaust gas port 14 temperatureexhaust gas port 15 temperatureexhaust gas port 1\
6 temperatureexhaust gas port 17 temperatureexhaust gas port 18 temperatureexhaust gas port 19 tempe\
ratureexhaust gas port 20 temperaturemain bearing 1 temperaturemain bearing 2 temperaturemain bearin\
g 3 temperaturemain bearing 4 temperaturemain bearing 5 temperaturemain bearing 6 temperaturemain be\
aring 7 temperaturemain bearing 8 temperaturemain bearing 9 temperaturemain bearing 10 temperaturema\
in bearing 11 temperatureturbocharger lube oil pressure 2turbocharger 2 speedturbocharger 3 speedtur\
bocharger 4 speedturbocharger 1 compressor intake temperatureturbocharger 2 compressor intake temper\
atureturbocharger 3 compressor intake temperatureturbocharger 4 compressor intake temperatureturboch\
arger 1 compressor intake pressureturbocharger 2 compressor intake pressureturbocharger 3 compresso\
r intake pressureturbocharger 4 compressor intake pressureturbocharger 1 turbine intake temperaturet\
urbocharger 2 turbine intake temperatureturbocharger 3 turbine intake temperatureturbocharger 4 turb\
ine intake temperatureturbocharger 1 turbine outlet temperatureturbocharger 2 turbine outlet tempera\
tureturbocharger 3 turbine outlet temperatureturbocharger 4 turbine outlet temperatureturbocharger w\
astegate actuator 1 positionturbocharger wastegate actuator 2 positionturbocharger wastegate actuato\
r 3 positionturbocharger wastegate actuator 4 positionturbocharger wastegate actuator control air pr\
essureengine operation time since rebuildanti-theft encryption seed presentanti-theft password valid\
anti-theft component statusanti-theft modify passwordanti-theft random numberanti-theft encryption i\
ndicatoranti-theft desired exit modeanti-theft commandanti-theft password representationauxiliary co\
olant pressureelectrical loadpre-filter oil pressureexhaust gas pressurefuel rack positionmalfunctio\
n indicator lampsuspect parameter numberfailure mode identifieroccurrence countfreeze frame lengthac\
tive trouble codespreviously active diagnostic trouble codesOBD compliancecontinuously monitored sys\
tems, support and statusnon-continuously monitored systems, supportnon-continuously monitored system\
s, statusJ1939 network 2J1939 network 3engine shutdown override switchtraction control override swit\
chfuel leakage 1fuel leakage 2instantaneous estimated brake powerABS fully operationalfuel actuator \
2 control commandtiming actuator 2starter motor relay lockoutmisfire for multiple cylindersmisfire c\
ylinder 1misfire cylinder 2misfire cylinder 3misfire cylinder 4misfire cylinder 5misfire cylinder 6m\
isfire cylinder 7misfire cylinder 8misfire cylinder 9misfire cylinder 10misfire cylinder 11misfire c\
ylinder 12misfire cylinder 13misfire cylinder 14misfire cylinder 15misfire cylinder 16misfire cylind\
er 17misfire cylinder 18misfire cylinder 19misfire cylinder 20misfire cylinder 21misfire cylinder 22\
misfire cylinder 23misfire cylinder 24fuel pump pressurizing assembly 1fuel pump pressurizing assemb\
ly 2injector metering rail 2 pressureair compressor statuscylinder 1 knock levelcylinder 2 knock lev\
elcylinder 3 knock levelcylinder 4 knock levelcylinder 5 knock levelcylinder 6 knock levelcylinder \
7 knock levelcylinder 8 knock levelcylinder 9 knock levelcylinder 10 knock levelcylinder 11 knock le\
velcylinder 12 knock levelcylinder 13 knock levelcylinder 14 knock levelcylinder 15 knock levelcylin\
der 16 knock levelcylinder 17 knock levelcylinder 18 knock levelcylinder 19 knock levelcylinder 20 k\
nock levelcylinder 21 knock levelcylinder 22 knock levelcylinder 23 knock levelcylinder 24 knock lev\
elengine synchronization switchoil change intervaloil level remote reservoirfuel supply pump intake \
pressurefuel filter (suction side) differential pressureengine was shut down hotengine commanded shu\
tdownauxiliary pressure 1auxiliary pressure 2fuel valve 1 intake absolute pressurefuel valve 1 diffe\
rential pressureair to fuel differential pressurecylinder 1 ignition transformer secondary outputcyl\
inder 2 ignition transformer secondary outputcylinder 3 ignition transformer secondary outputcylinde\
r 4 ignition transformer secondary outputcylinder 5 ignition transformer secondary outputcylinder 6 \
ignition transformer secondary outputcylinder 7 ignition transformer secondary outputcylinder 8 igni\
tion transformer secondary outputcylinder 9 ignition transformer secondary outputcylinder 10 ignitio\
n transformer secondary outputcylinder 11 ignition transformer secondary outputcylinder 12 ignition \
transformer secondary outputcylinder 13 ignition transformer secondary outputcylinder 14 ignition tr\
ansformer secondary outputcylinder 15 ignition transformer secondary outputcylinder 16 ignition tran\
sformer secondary outputcylinder 17 ignition transformer secondary outputcylinder 18 ignition transf\
ormer secondary outputcylinder 19 ignition transformer secondary outputcylinder 20 ignition transfor\
mer secondary outputcylinder 1 ignition timingcylinder 2 ignition timingcylinder 3 ignition timingcy\
linder 4 ignition timingcylinder 5 ignition timingcylinder 6 ignition timingcylinder 7 ignition timi\
ngcylinder 8 ignition timingcylinder 9 ignition timingcylinder 10 ignition timingcylinder 11 ignitio\
n timingcylinder 12 ignition timingcylinder 13 ignition timingcylinder 14 ignition timingcylinder 1\
5 ignition timingcylinder 16 ignition timingcylinder 17 ignition timingcylinder 18 ignition timingcy\
linder 19 ignition timingcylinder 20 ignition timingdesired ignition timing 1desired ignition timin\
g 2desired ignition timing 3actual ignition timingroad speed limit statusABS/EBS amber warning signa\
lEBS red warning signalfuel flow rate 1fuel flow rate 2fuel valve 1 positionfuel valve 2 positioncyl\
inder 1 combustion timecylinder 2 combustion timecylinder 3 combustion timecylinder 4 combustion tim\
ecylinder 5 combustion timecylinder 6 combustion timecylinder 7 combustion timecylinder 8 combustio\
n timecylinder 9 combustion timecylinder 10 combustion timecylinder 11 combustion timecylinder 12 co\
mbustion timecylinder 13 combustion timecylinder 14 combustion timecylinder 15 combustion timecylind\
er 16 combustion timecylinder 17 combustion timecylinder 18 combustion timecylinder 19 combustion ti\
mecylinder 20 combustion timedesired combustion timeaverage combustion timesource address of the dev\
ice controlling the retardersource address of the device controlling the brakessource address of th\
e device controlling the transmissionsource address of the device controlling the engineother ECUs h\
ave reported fault codes affecting operationECU main relayillumination brightnesspowered vehicle wei\
ghtspeed of forward vehicledistance to forward vehicleadaptive cruise control set speedadaptive crui\
se control set distance modeadaptive cruise control moderoad curvaturefront axle, left wheel speedfr\
ont axle, right wheel speedrear axle, left wheel speedrear axle, right wheel speedlocal minute offse\
tlocal hour offsetvehicle motiondriver 1 working statedriver 2 working statevehicle overspeeddriver \
card, driver 1driver card, driver 2driver 1 time related statesdriver 2 time related statesdirectio\
n indicatortachograph performancehandling informationsystem eventtachograph output shaft speedtachog\
raph vehicle speeddriver 1 identificationdriver 2 identificationcruise control pause switchcalibrati\
on verification numbercalibration identificationintake manifold temperature, high resolutioncoolant \
temperature, high resolutionhydraulic temperaturefan speedvehicle limiting speed governor enable swi\
tchengine automatic start enable switchturbocharger lube oil level switchautomatic gear shifting ena\
ble switchretarder requesting brake lightengine starter modecab interior temperature commanddesired \
absolute intake manifold pressureturbocharger wastegate valve positiongas mass flow sensor fueling c\
orrectionexhaust gas oxygen sensor fueling correctionexhaust gas oxygen sensor closed loop operation\
tire pressure system wheel sensor statustire pressure system tire statustire pressure system wheel e\
nd electrical faultlane tracking status, left sidelane tracking status, right sidehydraulic oil filt\
er restriction switchoperator seat direction switchdriver's demand retarder percent torqueretarder s\
election, non-engineactual maximum available retarder percent torquerelative level, front axle leftr\
elative level, front axle rightrelative level, rear axle rightrelative level, rear axle leftbellow p\
ressure, front axle leftbellow pressure, front axle rightbellow pressure, rear axle leftbellow press\
ure, rear axle rightgross combination vehicle weightreagent tank levelhydraulic pressurerequested fu\
el valve 1 positionrequested fuel valve 2 positiontractor-mounted trailer ABS warning signalATC/ASR \
information signalalternator current, high rangebattery 1 temperaturebattery 2 temperatureintake man\
ifold 5 temperatureintake manifold 6 temperatureengine start enable device 2steering wheel angleyaw \
ratelateral accelerationlongitudinal accelerationsteering wheel turn countervehicle dynamic stabilit\
y control information signalvehicle dynamic stability control fully operationalvehicle dynamic stabi\
lity control brake light requestroll over prevention engine control activeroll over prevention brak\
e control activeyaw control engine control activeyaw control brake control activeramp or wheel chai\
r lift positionposition of doorstotal average fuel ratetotal average fuel economytrailer ABS statuso\
perator seat belt switchsource address 0 (engine 1)source address 1 (engine 2)source address 2 (turb\
ocharger)source address 3 (transmission 1)source address 4 (transmission 2)source address 5 (shift c\
onsole, primary)source address 6 (shift console, secondary)source address 7 (power takeoff, main or \
rear)source address 8 (axle, steering)source address 9 (axle, drive 1)source address 10 (axle, driv\
e 2)source address 11 (brakes, system controller)source address 12 (brakes, steer axle)source addres\
s 13 (brakes, drive axle 1)source address 14 (brakes, drive axle 2)source address 15 (retarder, engi\
ne)source address 16 (retarder, driveline)source address 17 (cruise control)source address 18 (fuel \
system)source address 19 (steering controller)source address 20 (suspension, steer axle)source addre\
ss 21 (suspension, drive axle 1)source address 22 (suspension, drive axle 2)source address 23 (instr\
ument cluster 1)source address 24 (trip recorder)source address 25 (climate control 1)source addres\
s 26 (alternator or charging system)source address 27 (aerodynamic control)source address 28 (vehicl\
e navigation)source address 29 (vehicle security)source address 30 (electrical system)source addres\
s 31 (starter system)source address 32 (tractor-trailer bridge 1)source address 33 (body controller)\
source address 34 (auxiliary valve control or engine air system valve control)source address 35 (hit\
ch control)source address 36 (power takeoff, front or secondary)source address 37 (off vehicle gatew\
ay)source address 38 (virtual terminal in the cab)source address 39 (management computer 1)source ad\
dress 40 (cab display 1)source address 41 (retarder, exhaust, engine 1)source address 42 (headway co\
ntroller)source address 43 (on-board diagnostic unit)source address 44 (retarder, exhaust, engine 2)\
source address 45 (endurance braking system)source address 46 (hydraulic pump controller)source addr\
ess 47 (suspension, system controller 1)source address 48 (pneumatic system controller)source addres\
s 49 (cab controller, primary)source address 50 (cab controller, secondary)source address 51 (tire p\
ressure controller)source address 52 (ignition control module 1)source address 53 (ignition control \
module 2)source address 54 (seat control 1)source address 55 (lighting, operator controls)source add\
ress 56 (rear axle steering controller 1)source address 57 (water pump controller)source address 58 \
(climate control 2)source address 59 (transmission display, primary)source address 60 (transmission \
display, secondary)source address 61 (exhaust emission controller)source address 62 (vehicle dynami\
c stability controller)source address 63 (oil sensor)source address 64 (suspension, system controlle\
r 2)source address 65 (information system controller 1)source address 66 (ramp control)source addres\
s 67 (clutch or converter unit)source address 68 (auxiliary heater 1)source address 69 (auxiliary he\
ater 2)source address 70 (engine valve controller)source address 71 (chassis controller 1)source add\
ress 72 (chassis controller 2)source address 73 (propulsion battery charger)source address 74 (commu\
nications unit, cellular)source address 75 (communications unit, satellite)source address 76 (commun\
ications unit, radio)source address 77 (steering column unit)source address 78 (fan drive controller\
)source address 79 (seat control 2)source address 80 (parking brake controller)source address 81 (af\
tertreatment 1 system gas intake)source address 82 (aftertreatment 1 system gas outlet)source addres\
s 83 (safety restraint system 1)source address 84 (cab display 2)source address 85 (diesel particula\
te filter controller)source address 86 (aftertreatment 2 system gas intake)source address 87 (aftert\
reatment 2 system gas outlet)source address 88 (safety restraint system 2)source address 89 (atmosph\
eric sensor)source address 90 (powertrain control module)source address 91 (power systems manager)so\
urce address 92 (engine injection control module)source address 93 (fire protection system)source ad\
dress 94 (driver impairment device)source address 95source address 96source address 97source addres\
s 98source address 99source address 100source address 101source address 102source address 103source \
address 104source address 105source address 106source address 107source address 108source address 10\
9source address 110source address 111source address 112source address 113source address 114source ad\
dress 115source address 116source address 117source address 118source address 119source address 120s\
ource address 121source address 122source address 123source address 124source address 125source addr\
ess 126source address 127source address 128source address 129source address 130source address 131sou\
rce address 132source address 133source address 134source address 135source address 136source addres\
s 137source address 138source address 139source address 140source address 141source address 142sourc\
e address 143source address 144source address 145source address 146source address 147source address \
148source address 149source address 150source address 151source address 152source address 153source \
address 154source address 155source address 156source address 157source address 158source address 15\
9source address 160source address 161source address 162source address 163source address 164source ad\
dress 165source address 166source address 167source address 168source address 169source address 170s\
ource address 171source address 172source address 173source address 174source address 175source addr\
ess 176source address 177source address 178source address 179source address 180source address 181sou\
rce address 182source address 183source address 184source address 185source address 186source addres\
s 187source address 188source address 189source address 190source address 191source address 192sourc\
e address 193source address 194source address 195source address 196source address 197source address \
198source address 199source address 200source address 201source address 202source address 203source \
address 204source address 205source address 206source address 207source address 208source address 20\
9source address 210source address 211source address 212source address 213source address 214source ad\
dress 215source address 216source address 217source address 218source address 219source address 220s\
ource address 221source address 222source address 223source address 224source address 225source addr\
ess 226source address 227source address 228source address 229source address 230source address 231sou\
rce address 232source address 233source address 234source address 235source address 236source addres\
s 237source address 238source address 239source address 240source address 241source address 242sourc\
e address 243source address 244source address 245source address 246source address 247source address \
248 (file server or printer)source address 249 (off-board diagnostic service tool 1)source address 2\
50 (off-board diagnostic service tool 2)source address 251 (on-board data logger)source address 252 \
(reserved for experimental use)source address 253 (reserved for the maker)source address 254source a\
ddress 255high beam head lightlow beam head lightleft turn signal lightsright turn signal lightslef\
t stop lightright stop lightcenter stop lightengine demand percent torqueright manifold exhaust gas \
temperatureleft manifold exhaust gas temperaturesea water pump outlet pressuregenerator average AC f\
requencygenerator phase A AC frequencygenerator phase B AC frequencygenerator phase C AC frequencyge\
nerator average line to line voltagegenerator phase A to B voltagegenerator phase B to C voltagegene\
rator phase C to A voltagegenerator average line to neutral voltagegenerator phase A to neutral volt\
agegenerator phase B to neutral voltagegenerator phase C to neutral voltagegenerator average current\
generator phase A currentgenerator phase B currentgenerator phase C currentgenerator total real powe\
rgenerator phase A real powergenerator phase B real powergenerator phase C real powergenerator tota\
l reactive powergenerator phase A reactive powergenerator phase B reactive powergenerator phase C re\
active powergenerator total apparent powergenerator phase A apparent powergenerator phase B apparen\
t powergenerator phase C apparent powergenerator overall power factorgenerator phase A power factorg\
enerator phase B power factorgenerator phase C power factorgenerator total energy exportedgenerator \
total energy importedrequested groupselected maximum vehicle speed limithydraulic oil levelaccelerat\
or pedal 1 channel 2turbocharger 1 compressor outlet temperaturecharge air cooler 1 outlet temperatu\
recharge air cooler 1 outlet pressurepower relayexhaust gas recirculation mass flow rateexhaust gas \
recirculation 2 mass flow rateexhaust gas recirculation 1 valve controlvariable geometry turbocharge\
r 1 actuator positioninjector group 1injector group 2data memoryfront operator wiper switchmain ligh\
t switchwork light switchhigh or low beam switchturn signal switchalternate rating selectstarter mot\
or relay controltransmission engine crank enableECU part numberECU serial numberECU locationECU type\
external acceleration demandaccelerator pedal 2 low idle switchestimated engine parasitic losses, pe\
rcent torquevehicle acceleration rate limit statustorque converter ratioreagent tank temperaturedist\
ance travelled while the malfunction lamp is onintake NOxintake oxygenaftertreatment 1 intake gas se\
nsor power in rangeaftertreatment 1 intake gas sensor at temperatureaftertreatment 1 intake NOx read\
ing stableaftertreatment 1 intake oxygen reading stableaftertreatment 1 intake gas sensor heater pre\
liminary FMIaftertreatment 1 intake gas sensor heater controlaftertreatment 1 intake NOx sensor prel\
iminary FMIaftertreatment 1 intake oxygen sensor preliminary FMIoutlet NOxoutlet oxygenaftertreatmen\
t 1 outlet gas sensor power in rangeaftertreatment 1 outlet gas sensor at temperatureaftertreatment \
1 outlet NOx reading stableaftertreatment 1 outlet oxygen reading stableaftertreatment 1 outlet gas \
sensor heater preliminary FMIaftertreatment 1 outlet gas sensor heater controlaftertreatment 1 outle\
t NOx sensor preliminary FMIaftertreatment 1 outlet oxygen sensor preliminary FMIaftertreatment 1 ex\
haust gas mass flow rateaftertreatment 1 intake dew point detectedaftertreatment 1 outlet dew point \
detectedaftertreatment 2 intake dew point detectedaftertreatment 2 outlet dew point detectedexhaust \
gas temperature 1particulate filter intake gas temperatureaftertreatment 1 exhaust gas temperature \
1 preliminary FMIaftertreatment 1 particulate filter intake gas temperature preliminary FMIexhaust g\
as temperature 3particulate filter outlet gas temperatureaftertreatment 1 exhaust gas temperature 3 \
preliminary FMIaftertreatment 1 particulate filter outlet gas temperature preliminary FMIexhaust ga\
s temperature 2particulate filter intermediate gas temperatureparticulate filter differential pressu\
reaftertreatment 1 exhaust gas temperature 2 preliminary FMIaftertreatment 1 particulate filter diff\
erential pressure preliminary FMIaftertreatment 1 particulate filter intermediate gas temperature pr\
eliminary FMIaftertreatment 2 intake NOxaftertreatment 2 intake oxygenaftertreatment 2 outlet NOxaft\
ertreatment 2 outlet oxygenaftertreatment 2 exhaust gas temperature 1aftertreatment 2 particulate fi\
lter intake gas temperatureaftertreatment 2 exhaust gas temperature 3aftertreatment 2 particulate fi\
lter outlet gas temperatureaftertreatment 2 exhaust gas temperature 2aftertreatment 2 particulate fi\
lter intermediate gas temperatureaftertreatment 2 particulate filter differential pressuredistance s\
ince diagnostic trouble codes clearedminutes run by engine while the malfunction lamp is ontime sinc\
e diagnostic trouble codes clearedtime since engine startnumber of warm-ups since diagnostic troubl\
e codes clearedTSC1 transmission rateTSC1 control purposealternator 1 statusalternator 2 statusalter\
nator 3 statusalternator 4 statusactual maximum available engine percent torqueexhaust gas recircula\
tion 1 intake pressureaftertreatment 1 diesel exhaust fluid controlleraftertreatment 1 diesel exhaus\
t fluid dosing unitaftertreatment 1 diesel exhaust fluid dosing unit input linesaftertreatment 1 die\
sel exhaust fluid tank heateraftertreatment 1 diesel exhaust fluid tank qualitystatus 2 of doorsloc\
k status of door 1open status of door 1enable status of door 1lock status of door 2open status of do\
or 2enable status of door 2lock status of door 3open status of door 3enable status of door 3lock sta\
tus of door 4open status of door 4enable status of door 4lock status of door 5open status of door 5e\
nable status of door 5lock status of door 6open status of door 6enable status of door 6lock status o\
f door 7open status of door 7enable status of door 7lock status of door 8open status of door 8enabl\
e status of door 8lock status of door 9open status of door 9enable status of door 9lock status of do\
or 10open status of door 10enable status of door 10throttle actuator 1 control commandthrottle actua\
tor 2 control commandaftertreatment 1 fuel pressure 1aftertreatment 1 fuel rateaftertreatment 1 fue\
l enable actuatoraftertreatment 1 regeneration statusaftertreatment 1 ignitionaftertreatment 1 suppl\
y air pressureaftertreatment 1 purge air pressureaftertreatment 1 air pressure controlaftertreatmen\
t 1 air pressure actuator positionaftertreatment 1 air enable actuatoraftertreatment 1 purge air act\
uatorsensor supply voltage 1sensor supply voltage 2sensor supply voltage 3sensor supply voltage 4sen\
sor supply voltage 5sensor supply voltage 6aftertreatment 1 diesel exhaust fluid temperature 2aftert\
reatment 1 diesel exhaust fluid concentrationaftertreatment 1 diesel exhaust fluid tank level 2after\
treatment 1 diesel exhaust fluid temperature 2 preliminary FMIaftertreatment 1 diesel exhaust fluid \
properties preliminary FMIaftertreatment 1 diesel exhaust fluid propertyaftertreatment 1 total fuel \
usedaftertreatment 1 total regeneration timeaftertreatment 1 total disabled timeaftertreatment 1 tot\
al number of active regenerationsaftertreatment 1 hydrocarbon doserintake manifold 2 pressureintake \
manifold 1 absolute pressureECU power output supply voltage 1ECU power output supply voltage 2ECU po\
wer output supply voltage 3engine emergency shutdown indicationparticulate filter 1 intake pressurep\
articulate filter 1 outlet pressureengine derate requestengine air shutoff statusthrottle 2 position\
particulate filter regeneration inhibit switchparticulate filter regeneration force switchparticulat\
e filter lamp commandexhaust system high temperature lamp commandparticulate filter passive regenera\
tion statusparticulate filter active regeneration statusparticulate filter statusregeneration inhibi\
ted statusregeneration inhibited by the inhibit switchregeneration inhibited due to clutch disengage\
dregeneration inhibited due to service brake activeregeneration inhibited due to power takeoff activ\
eregeneration inhibited due to accelerator pedal off idleregeneration inhibited due to out of neutra\
lregeneration inhibited due to vehicle speed above allowed speedregeneration inhibited due to parkin\
g brake not setregeneration inhibited due to low exhaust temperatureregeneration inhibited due to sy\
stem fault activeregeneration inhibited due to system timeoutregeneration inhibited due to temporar\
y system lockoutregeneration inhibited due to permanent system lockoutregeneration inhibited due to \
engine not warmed upregeneration inhibited due to vehicle speed below allowed speedparticulate filte\
r automatic active regeneration initiation configurationaftertreatment 1 particulate filter soot loa\
d percentaftertreatment 1 particulate filter ash load percentaftertreatment 1 particulate filter tim\
e since last active regenerationaftertreatment 2 particulate filter soot load percentaftertreatment \
2 particulate filter ash load percentaftertreatment 2 particulate filter time since last active rege\
nerationparticulate filter conditions not met for active regenerationaftertreatment 1 diesel exhaus\
t fluid average consumptionaftertreatment 1 secondary air differential pressureaftertreatment partic\
ulate filter systemgenerator governing biasat least one power takeoff engagedcoolant temperature 2NO\
x limits exceeded, root cause unknownNOx limits exceeded due to insufficient diesel exhaust fluid qu\
alityNOx limits exceeded due to interruption of diesel exhaust fluid dosingNOx limits exceeded due t\
o empty diesel exhaust fluid tankactual engine percent torque, fractionalinjector group 3aftertreatm\
ent 1 diesel exhaust fluid actual dosing quantityaftertreatment 1 SCR system stateaftertreatment 1 d\
iesel exhaust fluid actual quantity of integratoraftertreatment 1 diesel exhaust fluid doser absolut\
e pressureaftertreatment 1 SCR dosing air assist absolute pressureaftertreatment 1 SCR dosing air as\
sist valveaftertreatment 1 diesel exhaust fluid doser temperatureaftertreatment 1 SCR feedback contr\
ol statusaftertreatment 1 diesel exhaust fluid line heater 1 stateaftertreatment 1 diesel exhaust fl\
uid line heater 1 preliminary FMIaftertreatment 1 diesel exhaust fluid line heater 2 stateaftertreat\
ment 1 diesel exhaust fluid line heater 2 preliminary FMIaftertreatment 1 diesel exhaust fluid line \
heater 3 stateaftertreatment 1 diesel exhaust fluid line heater 3 preliminary FMIaftertreatment 1 di\
esel exhaust fluid line heater 4 stateaftertreatment 1 diesel exhaust fluid line heater 4 preliminar\
y FMIaftertreatment 1 diesel exhaust fluid requested dosing quantityaftertreatment 1 diesel exhaust \
fluid line heater 1aftertreatment 1 diesel exhaust fluid line heater 2aftertreatment 1 diesel exhaus\
t fluid line heater 3aftertreatment 1 diesel exhaust fluid line heater 4aftertreatment 1 SCR differe\
ntial pressureaftertreatment 1 SCR intake temperatureaftertreatment 1 SCR outlet temperatureaftertre\
atment 1 SCR conversion efficiencyaftertreatment 1 diesel exhaust fluid tank 1 heateraftertreatment \
1 diesel exhaust fluid tank 2 levelaftertreatment 1 diesel exhaust fluid tank 2 temperatureaftertrea\
tment 1 diesel exhaust fluid pump motor speedaftertreatment 1 diesel exhaust fluid pump drive percen\
tageaftertreatment 1 diesel exhaust fluid return valveaftertreatment 1 outlet ammoniaexhaust gas rec\
irculation 1 cooler efficiencyaftertreatment 1 diesel oxidation catalyst intake gas temperatureafter\
treatment 1 diesel oxidation catalyst outlet gas temperatureaftertreatment 1 particulate filter soo\
t massaftertreatment 1 SCR systemaftertreatment 1 SCR system missingaftertreatment 1 particulate fil\
ter missingaftertreatment 1 diesel oxidation catalyst missingaftertreatment 1 intake NOx sensor heat\
er ratioaftertreatment 1 outlet NOx sensor heater ratiotrip fuel, high resolutiontotal fuel used, hi\
gh resolutionengine amber warning lamp commandengine red stop lamp commandOBD malfunction indicator \
lamp commandsensor supply voltage 7sensor supply voltage 8aftertreatment diesel exhaust fluid tank l\
ow level indicatoraftertreatment SCR operator inducement severitycharge air cooler 1 efficiencyafter\
treatment 1 diesel oxidation catalyst conversion efficiencycommanded fuel rail pressurecommanded inj\
ection control pressureaftertreatment 1 particulate filter incomplete regenerationfuel injection qua\
ntity error for multiple cylindersaftertreatment 1 diesel exhaust fluid doseraftertreatment 1 partic\
ulate filter regeneration too frequentaftertreatment 1 diesel exhaust fluid pump stateaftertreatmen\
t 1 particulate filter soot load regeneration thresholdaftertreatment 1 diesel exhaust fluid line he\
ater relayhigh pressure fuel rail pressure relief valvefuel delivery absolute pressureinjector meter\
ing rail 1 cranking pressureaftertreatment 1 outlet soot sensoraftertreatment particulate filter tem\
perature sensor moduleaftertreatment SCR temperature sensor moduleaftertreatment 1 diesel exhaust fl\
uid dosing unit heateraftertreatment 1 diesel exhaust fluid dosing unit heater relaydesired engine f\
ueling stateaftertreatment 1 diesel exhaust fluid dosing unit heater temperatureemission control sys\
tem operator inducement severityfuel typeexhaust gas recirculation valve malfunctiondiesel exhaust f\
luid quality malfunctionSCR monitoring system malfunctionaftertreatment 1 SCR intermediate ammoniaaf\
tertreatment 1 SCR intermediate temperaturewater in fuel indicator 2";

/// All of them.
pub(crate) fn table() -> NameTable<'static>
    ensures { names_of result ≡ record { numbers = NUMBERS; starts = STARTS; text = NAMES.now } }
{
    NameTable {
        numbers: &NUMBERS,
        starts: &STARTS,
        text: NAMES.as_bytes(),
    }
}
